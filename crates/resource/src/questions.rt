// The questions that the calls of a resource put first.
ghost use Rattle.std.specs.Prelude.{◌≡◌, ◌==◌};
ghost use Rattle.resource.specs.Answers.{row_answer, route_answer};
ghost use Rattle.resource.specs.Making.{figure_answer};

use crate::limits::{MARK_BYTES, MOST_STEPS, WIDEST, WORK_ROWS};
use crate::refusal::Refusal;

// Is the figure of a resource within its most? Gives it.
pub fn ask_figure(most: u32, figure: u32) -> Result<u32, Refusal>
    ensures { result ≡ figure_answer most figure }
{
    if figure > most {
        return Err(Refusal::FigureTooGreat);
    }
    Ok(figure)
}

// Is the width not too wide, and does a row have so many words?
pub fn ask_row(width: usize, words: usize) -> Result<(), Refusal>
    ensures { result ≡ row_answer width (words == width) tt }
{
    if width > WIDEST {
        return Err(Refusal::TooWide);
    }
    if words != width {
        return Err(Refusal::OtherWidth);
    }
    Ok(())
}

// Is the width not too wide, has a route at most 41 steps, the work slice four widths and the mark list 41 bytes?
pub fn ask_route(width: usize, steps: usize, marks: usize, work: usize) -> Result<(), Refusal>
    ensures { result ≡ route_answer width steps marks work tt }
{
    if width > WIDEST {
        return Err(Refusal::TooWide);
    }
    if steps > MOST_STEPS {
        return Err(Refusal::TooManySteps);
    }
    if work < WORK_ROWS * width || marks < MARK_BYTES {
        return Err(Refusal::TooLittleRoom);
    }
    Ok(())
}
