// All scenarios of a case, in their order. A choice of sets is a number: its highest bits are the outermost layer's set,
// and in a set the first step has the highest bit. So the numbers from 0 on are in the order of the scenarios.
use crate::cases::Case;
use std::alloc::{AllocError, Global};

pub fn count(number: usize) -> u32 {
    u32::try_from(number).unwrap_or(u32::MAX)
}

// The number of bits of a choice.
fn bits(case: &Case) -> u32 {
    count(case.layers.len()).saturating_mul(count(case.steps.len()))
}

// No set has more steps than its layer's budget.
fn is_scenario(case: &Case, choice: u32) -> bool {
    let steps = count(case.steps.len());
    let all = 1u32.wrapping_shl(steps).saturating_sub(1);
    let mut sets = choice;
    for layer in case.layers.iter().rev() {
        if (sets & all).count_ones() > layer.most {
            return false;
        }
        sets = sets.wrapping_shr(steps);
    }
    true
}

// The classes of the layers whose set has step i.
fn chosen_marks(case: &Case, choice: u32, i: u32) -> u8 {
    let steps = count(case.steps.len());
    let mut sets = choice.wrapping_shr(steps.saturating_sub(i).saturating_sub(1));
    let mut marks = 0;
    for layer in case.layers.iter().rev() {
        if sets & 1 == 1 {
            marks |= layer.class;
        }
        sets = sets.wrapping_shr(steps);
    }
    marks
}

// The mark list of a scenario: its marks and those given.
fn scenario_list(heap: Global, case: &Case, choice: u32) -> Result<Vec<u8>, AllocError> {
    let mut list = Vec::from_slice(heap, case.given.as_slice())?;
    for (i, mark) in list.iter_mut().take(case.steps.len()).enumerate() {
        *mark |= chosen_marks(case, choice, count(i));
    }
    Ok(list)
}

// The mark list of the first scenario in which the route is refused.
pub(crate) fn search<F: Fn(&Case, &[u8]) -> bool>(
    heap: Global,
    case: &Case,
    accepts: &F,
) -> Result<Option<Vec<u8>>, AllocError>
    requires { F.IsAlwaysCallable accepts.now }
{
    for choice in 0..1u32.wrapping_shl(bits(case)) {
        if is_scenario(case, choice) {
            let list = scenario_list(heap, case, choice)?;
            if !accepts(case, list.as_slice()) {
                return Ok(Some(list));
            }
        }
    }
    Ok(None)
}
