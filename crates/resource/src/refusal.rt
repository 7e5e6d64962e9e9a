// What a resource's calls refuse, and the number of each refusal.
ghost use Rattle.std.specs.Prelude.{◌≡◌};
ghost use Rattle.resource.specs.Answers.{number_of};

#[derive(Clone, Copy, PartialEq, Eq, Debug)]
pub enum Refusal {
    // the resource, or the pile, is too wide
    TooWide = 11,
    // the beginning, the capacity or the limit is above its most
    FigureTooGreat = 12,
    // the budget is above 8
    BudgetTooGreat = 13,
    // the class is not one bit
    ClassNotOneBit = 14,
    // a route has at most 41 steps
    TooManySteps = 17,
    // a row is not of the resource's width
    OtherWidth = 18,
    // the work slice has less than four widths, or the mark list less than 41 bytes
    TooLittleRoom = 21,
}

impl Refusal {
    pub fn number(self) -> u32
        ensures { result ≡ number_of self }
    {
        self as u32
    }
}
