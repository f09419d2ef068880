//! Laws of the definitions, each the contract of a function that does nothing but call other laws.
ghost use Rattle.kmc_database.specs.Laws.{DatabaseTellsText, PackedIsReadBack, PackedTellsText, TextTellsDatabase, UnpackedIsDump};

use kmc_sum::laws::text_lists_one;

/// The two files of a database tell its pairs.
pub fn packed_is_read_back()
    ensures { PackedIsReadBack }
{}

/// What is unpacked of the files of a database is the dump of its pairs: that of what was packed is what was packed.
pub fn unpacked_is_dump()
    ensures { UnpackedIsDump }
{}

/// Two files whose text lists pairs are a database of these pairs, and nothing else: a file that is at fault anywhere lists nothing.
pub fn text_tells_database()
    ensures { TextTellsDatabase }
{
    text_lists_one();
}

/// The text of the two files of a database is the dump of its pairs.
pub fn database_tells_text()
    ensures { DatabaseTellsText }
{}

/// The text of the two files that a dump was packed into is that dump.
pub fn packed_tells_text()
    ensures { PackedTellsText }
{}
