// What the reader expects next: a form, and which one of its kind. Not one type with `Form`: a stop and a leg have numbers
// here, and each budget is due at a place of its own.

#[derive(Clone, Copy, PartialEq, Eq, Debug)]
pub enum Expectation {
    Day,
    Depot,
    Capacity,
    Drive,
    TravelBudget,
    ServeBudget,
    DemandBudget,
    Stops,
    // a stop's number, and how many there are
    Stop(u32, u32),
    // the places that a leg leads from and to, and how many stops there are
    Leg(u32, u32, u32),
    End,
    // the end of the text; not `None`, which says that no line of the form due has come
    Nothing,
}

// What is asked of a line, in this order.
#[derive(Clone, Copy, PartialEq, Eq, Debug)]
pub enum Question {
    // is it of the form that is due here?
    Form,
    // is every number within its bounds?
    Bounds,
    // is it the stop or the leg next in turn, and does its window open no later than it closes?
    Turn,
}
