//! Lists that know the places of their bodies, from one thread or several, until all of them are there.
ghost use Rattle.std.specs.Prelude.{◌≡◌, ℕ, List, Option, length, nat_eq, IfOk, IfSome};
ghost use Rattle.std.specs.List.{All, position};
ghost use Rattle.kmc_base.specs.declared.strands.Strands.{Strands};
ghost use Rattle.kmc_count.specs.Asked.{AreOfBins};
ghost use Rattle.kmc_count.specs.declared.judging.AskedBin.{AskedBin};
ghost use Rattle.kmc_count.specs.declared.limits.Limits.{Limits};
ghost use Rattle.kmc_stage_two.specs.Bodies.{AreListsOfBodies, IsListAt};

use kmc_base::PackedKmer;
use kmc_lists::{CountWidth, KmerList};
use kmc_record::BodyError;
use std::alloc::Global;

/// The list of a body, and the body's place among those of its group.
#[derive(Drop)]
pub struct Placed<W: PackedKmer, C: CountWidth> {
    /// The place of the body among those of its group.
    pub place: usize,
    /// The dump of the body.
    pub list: KmerList<W, C>,
}

/// The lists that threads made, each that of the body of its place. Where a thread made none, or the row cannot grow, the answer
/// is an error, and the caller counts these bodies anew, which tells the cause.
pub(crate) fn all_made<W: PackedKmer + Drop, C: CountWidth + Drop>(
    alloc: Global,
    rows: Vec<Result<Vec<Placed<W, C>>, BodyError>>,
) -> Result<Vec<Placed<W, C>>, BodyError>
    ensures { (strands : Strands) (k : ℕ) (l : Limits) (asked : Option AskedBin) (bodies : List (List ℕ))
        → All (λ r. IfOk r (λ lists. All (λ p. IsListAt strands k l asked bodies p.place p.list) lists.items)) rows.items
        → IfOk result (λ lists. All (λ p. IsListAt strands k l asked bodies p.place p.list) lists.items) }
{
    let mut lists = Vec::new(alloc);
    for row in rows {
        lists.append(&mut row?)?;
    }
    Ok(lists)
}

/// Where the list of a place stands.
fn list_at<W: PackedKmer, C: CountWidth>(placed: &[Placed<W, C>], place: usize) -> Option<usize>
    ensures { result ≡ position (λ p. nat_eq p.place place) placed.now }
{
    placed.iter().position(|one| one.place == place)
}

/// The lists in the order of their places, one for each of so many places. None where a place is missing, and where memory is
/// refused. Each place is looked for in turn, as a group of bodies has few.
pub fn in_order<W: PackedKmer + Drop, C: CountWidth + Drop>(
    alloc: Global,
    placed: Vec<Placed<W, C>>,
    count: usize,
) -> Option<Vec<KmerList<W, C>>>
    ensures { (strands : Strands) (k : ℕ) (l : Limits) (asked : Option AskedBin) (bodies : List (List ℕ))
        → length bodies ≡ count
        → All (λ p. IsListAt strands k l asked bodies p.place p.list) placed.items
        → IfSome result (λ lists. AreListsOfBodies strands k l bodies lists.items × AreOfBins asked bodies) }
{
    let mut left = placed;
    let Ok(mut lists) = Vec::with_capacity(alloc, count) else {
        return None;
    };
    for place in 0..count {
        let at = list_at(&left, place)?;
        let one = left.swap_remove(at);
        lists.push_reserved(one.list);
    }
    Some(lists)
}
