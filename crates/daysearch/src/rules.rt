// What the resources accept, said once more without rows. It has the names of classes and the ceiling from them, and no
// figure or walk, not the figures under marks either, so that it can judge them.
use records::step::Step;
use resource::figures::{DEMAND, SERVE, TRAVEL};
use resource::rows::CEILING;
use stranger::FREE;

// A figure, with its deviation where it is marked.
fn figure(planned: u32, deviation: u32, marked: bool) -> u64 {
    if marked {
        (planned as u64).saturating_add(deviation as u64)
    } else {
        planned as u64
    }
}

fn travel(step: &Step, mark: u8) -> u64 {
    figure(
        step.leg.travel,
        step.leg.travel_deviation,
        mark & TRAVEL != 0,
    )
}

fn serve(step: &Step, mark: u8) -> u64 {
    figure(
        step.stop.serve,
        step.stop.serve_deviation,
        mark & SERVE != 0,
    )
}

fn deliver(step: &Step, mark: u8) -> u64 {
    figure(
        step.stop.deliver,
        step.stop.deliver_deviation,
        mark & DEMAND != 0,
    )
}

fn pickup(step: &Step, mark: u8) -> u64 {
    figure(
        step.stop.pickup,
        step.stop.pickup_deviation,
        mark & DEMAND != 0,
    )
}

pub fn in_time(beginning: u32, steps: &[Step], marks: &[u8]) -> bool {
    let mut hour = beginning as u64;
    for (step, mark) in steps.iter().zip(marks) {
        let arrival = hour.saturating_add(travel(step, *mark));
        hour = arrival
            .max(step.stop.opens as u64)
            .saturating_add(serve(step, *mark));
        if arrival > step.stop.closes as u64 || hour > CEILING as u64 {
            return false;
        }
    }
    true
}

// In the loop, since the library's `sum` does not saturate.
fn to_deliver(steps: &[Step], marks: &[u8]) -> u64 {
    let mut sum = 0u64;
    for (step, mark) in steps.iter().zip(marks) {
        sum = sum.saturating_add(deliver(step, *mark));
    }
    sum
}

// The van sets out with all that it is to deliver.
pub fn has_room(capacity: u32, steps: &[Step], marks: &[u8]) -> bool {
    let mut load = to_deliver(steps, marks);
    let mut greatest = load;
    for (step, mark) in steps.iter().zip(marks) {
        load = load
            .saturating_sub(deliver(step, *mark))
            .saturating_add(pickup(step, *mark));
        greatest = greatest.max(load);
    }
    greatest <= capacity as u64
}

pub fn rests_in_time(drive: u32, steps: &[Step], marks: &[u8]) -> bool {
    let mut driven = 0u64;
    for (step, mark) in steps.iter().zip(marks) {
        driven = driven.saturating_add(travel(step, *mark));
        if driven > drive as u64 {
            return false;
        }
        if step.stop.rest != 0 {
            driven = 0;
        }
    }
    true
}

pub fn few_enough(stops: u32, late: u32, steps: &[Step], marks: &[u8]) -> bool {
    let late_legs = marks
        .iter()
        .take(steps.len())
        .filter(|mark| **mark & (TRAVEL | FREE) != 0)
        .count();
    steps.len() <= stops as usize && late_legs <= late as usize
}
