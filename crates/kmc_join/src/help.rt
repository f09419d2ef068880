//! The help of the program.

/// The uses of `kmc_db`, those that stand above this crate too, and their options.
pub const HELP: &'static str =
    "kmc_db: two dumps joined, told of or looked up in, and dumps as databases that KMC's tools read

usage: kmc_db union|intersect|subtract|counters-subtract [-oc<choice>] [-ci<n>] [-cx<n>] [-cs<n>] a.dump b.dump
       kmc_db table [-cs<n>] a.dump b.dump
       kmc_db histogram a.dump
       kmc_db spectrum [options of kmc] < reads > a.histogram
       kmc_db count [options of kmc] [-prefix<len>] [--force] <name> < reads
       kmc_db query [-b] a.dump|<name> < words
       kmc_db pack [-k<len>] [-prefix<len>] [-ci<n>] [-cx<n>] [-cs<n>] [-b] [--force] <name> < a.dump
       kmc_db dump <name> > a.dump

  union              the words of either dump, with the sum of their counts
  intersect          the words of both dumps, with the lesser of their counts
  subtract           the words of the first dump that the second does not list
  counters-subtract  the words of the first dump, with their counts less those in the second
  table              for each two counts that a word has there, how many words have both
  histogram          for each count, how many words have it
  spectrum           the same of the words of reads, with no dump between; it takes what kmc takes
  count              reads as a sorted database, with no dump between; it takes what kmc takes
  query              each word of the input with its count in the dump, or in the sorted database of this name
  pack               the dump of the input as a sorted database, <name>.kmc_pre and <name>.kmc_suf
  dump               the dump of a sorted database

  -oc<choice>      the count of a word of both dumps: min, max, sum, diff, left or right
  -ci<n>           words whose joined count is less are not listed; 2 where it is not given
  -cx<n>           words whose joined count is greater are not listed; 10^9
  -cs<n>           greater counts are shown as this; 255, and for table 1000
  -lci<n> -lcx<n>  the least and the greatest count taken of the first dump of a join; each count
  -rci<n> -rcx<n>  the same of the second dump
  -b               for query and pack: the dump was made with -b

  -k<len>          for pack: the length of words, 1 to 64; wanted of a dump without lines
  -prefix<len>     for pack and count: the symbols that the table goes by, 1 to 15; what fits best where it is not given
  --force          for pack and count: files that are there are written over

For pack, -ci, -cx and -cs are the limits that the dump was made with. In place of a.dump or b.dump stands also the name of a sorted
database, where no file has that very name, or that of its prefix file.
";
