// The strands of a graph.
ghost use Rattle.std.specs.Prelude.{◌≡◌, ◌≤◌, length, map, List, IfOk};
ghost use Rattle.std.specs.List.{filter, range_with_len};
ghost use Rattle.up_model.specs.declared.limits.TheConstants.{MAX_PIPES};
ghost use Rattle.up_model.specs.declared.pipe.Pipe.{Pipe as ThePipe};
ghost use Rattle.up_plan.specs.HeadTable.{has_head, head_of_each};
ghost use Rattle.up_plan.specs.Plan.{plan_strand};

use crate::lists::place_list;
use crate::{PlanStrand, StrandList};
use std::alloc::Global;
use up_base::NoMemory;

/// Whether the pipe at a place has this head.
fn has_head(each: &[Option<u16>], head: u16, place: u16) -> bool
    ensures { result ≡ has_head each.now head place }
{
    match each.get(usize::from(place)) {
        Some(Some(own)) => *own == head,
        _ => false,
    }
}

/// The places of all pipes that have this head.
fn places_of(alloc: Global, each: &[Option<u16>], head: u16) -> Result<Vec<u16>, NoMemory>
    requires { length each.now ≤ MAX_PIPES }
    ensures { IfOk result (λ own. own.items ≡ filter (has_head each.now head)
        (range_with_len 0 (length each.now))) }
{
    let count = each.len() as u16;
    Ok(
        (0..count)
            .filter(|place| has_head(each, head, *place))
            .collect(alloc)?,
    )
}

/// The strand of a head, of the head that each place has.
fn strand_of(alloc: Global, each: &[Option<u16>], head: u16) -> Result<PlanStrand, NoMemory>
    requires { length each.now ≤ MAX_PIPES }
    ensures { IfOk result (λ strand. (pipes : List ThePipe)
        → each.now ≡ head_of_each pipes → strand ≡ plan_strand pipes head) }
{
    let own = places_of(alloc, each, head)?;
    Ok(PlanStrand {
        head,
        pipes: place_list(alloc, &own)?,
    })
}

/// The strands of these heads, of the head that each place has.
pub fn strands_of(
    alloc: Global,
    heads: &[u16],
    each: &[Option<u16>],
) -> Result<StrandList, NoMemory>
    requires { length each.now ≤ MAX_PIPES }
    ensures { IfOk result (λ strands. (pipes : List ThePipe)
        → each.now ≡ head_of_each pipes → strands ≡ map (plan_strand pipes) heads.now) }
{
    let mut strands = StrandList::new(alloc);
    for head in heads {
        let strand = strand_of(alloc, each, *head)?;
        match strands.push(strand) {
            Ok(()) => {}
            Err(_) => return Err(NoMemory),
        }
    }
    Ok(strands)
}
