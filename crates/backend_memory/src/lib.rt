// The stored vectors of an index in lent memory, and their ranking by distance from a target: backend_memory.rs, and find_nearest of backend.rs.
// Marks say which ids are present, and the vector of id i is the i-th slot of the bytes.
#![tactic(auto)]

ghost use Rattle.std.specs.Prelude.{◌≡◌, length, IfOk};
ghost use Rattle.paper.specs.Refusals.{code_of};
ghost use Rattle.result.specs.Sets.{empty_set, fed_or};
ghost use Rattle.backend_memory.specs.Ranking.{RankArgs};
ghost use Rattle.backend_memory.specs.Scan.{scan_refusal, scan_of};
ghost use Rattle.backend_memory.specs.Laws.{Laws};

use paper::{Geometry, Refusal};
use result::ResultSet;

pub mod inner;

// Refuses a scan with the first of 1, 2, 4 and 5 that is due.
#[tactic(auto, unfolding(crate::specs::Scan::scan_refusal))]
fn check_scan(
    target: &[f32],
    g: Geometry,
    k: usize,
    marks: usize,
    vectors: usize,
) -> Result<(), Refusal>
    ensures told { code_of result ≡ scan_refusal g marks vectors target.now k }
    ensures sized { IfOk result (λ _. RankArgs g.mode k marks marks vectors (length target.now)) }
{
    g.check()?;
    if !index_memory::inner::store_lengths_ok(g, marks, vectors) {
        return Err(Refusal::WrongLength);
    }
    if target.len() != g.d {
        return Err(Refusal::WrongLength);
    }
    if k > 256 {
        return Err(Refusal::WrongK);
    }
    if !vector::all_finite(target) {
        return Err(Refusal::NotFinite);
    }
    Ok(())
}

// Ranks every present id, by rising id, into a list of at most k. Refuses 1, 2, 4, 5, and 10 for a score that is NaN; a refusal
// comes without a list (the rules have an empty one there, with k 0 and checked 0). It writes to no lent memory.
#[tactic(auto, unfolding(crate::specs::Scan::scan_of))]
pub fn full_table_scan(
    marks: &[u64],
    vectors: &[u8],
    target: &[f32],
    g: Geometry,
    k: usize,
) -> Result<ResultSet, Refusal>
    ensures { fed_or (empty_set 0) result ≡ scan_of g marks.now vectors.now target.now k }
{
    check_scan(target, g, k, marks.len(), vectors.len())?;
    inner::find_nearest(marks, vectors, target, g.mode, k)
}

// The laws of this crate, claimed: specs/Laws.antt says each of them.
pub fn laws()
    ensures { Laws }
{}
