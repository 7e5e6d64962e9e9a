// Reads `day.txt` in the current folder and prints the day back byte by byte, or one line that says why it is not read.

#![tactic(auto)]

use anyhow::bail;
use dayfile::copier::copy_day;
use dayfile::reader::LONGEST_TEXT;
use dayfile::refusal::CopyRefusal;
use records::{LEG_RECORDS, Leg, STOP_RECORDS, Stop};
use std::fs;
use std::io::Write;

fn check_day(rt: &HostRuntime) -> anyhow::Result<()> {
    let heap = rt.alloc();
    let text = fs::read(rt, "day.txt")?;
    let mut stops = vec![in heap; Stop::default(); STOP_RECORDS]?;
    let mut legs = vec![in heap; Leg::default(); LEG_RECORDS]?;
    let mut buffer = vec![in heap; 0u8; LONGEST_TEXT]?;
    match copy_day(&text, &mut stops, &mut legs, &mut buffer) {
        Ok(length) => {
            buffer.truncate(length);
            rt.stdout().write_all(&buffer)?;
        }
        Err(CopyRefusal::Unread(refusal)) => println!(rt; "{refusal}")?,
        Err(CopyRefusal::Unwritten(_)) => bail!("the day was read and not written"),
    }
    Ok(())
}

fn main(rt: HostRuntime) -> anyhow::Result<()> {
    check_day(&rt)
}
