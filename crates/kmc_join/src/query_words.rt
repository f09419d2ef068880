//! The words of a command line that ask for the counts of words.
ghost use Rattle.std.specs.Prelude.{◌≡◌, ◌≤◌, IfSome, length, map, string_bytes};
ghost use Rattle.kmc_join.specs.QueryWords.{is_query, query_strands};

use kmc_base::Strands;
use kmc_options::is_file_name;

/// Whether the words are `query` and the name of a file.
fn is_query(name: &str, file: &str) -> bool
    ensures { result ≡ is_query name.now file.now }
{
    name == "query" && is_file_name(file)
}

/// Whether strands are joined, where the words ask for counts: they are `query`, the option `-b` or none, and the name of a file. The
/// option tells the strands apart.
pub fn query_strands(words: &[String]) -> Option<Strands>
    ensures strands { result ≡ query_strands (map string_bytes words.now) }
    ensures some { IfSome result (λ _. 1 ≤ length words.now) }
{
    match words {
        [name, file] => {
            if is_query(name.as_str(), file.as_str()) {
                Some(Strands::Joined)
            } else {
                None
            }
        }
        [name, option, file] => {
            if is_query(name.as_str(), file.as_str()) && option.as_str() == "-b" {
                Some(Strands::Apart)
            } else {
                None
            }
        }
        _ => None,
    }
}
