// A table played to three inserters, each by its letter.
use super::play::answer;
use inserter::interface::Inserter;
use script::lines::cut_line;

// Plays the lines of three letters, from `first` on, up to the first line of another letter, and gives the rest back.
// The three may be of three makes, and the interface has a constant, so no `dyn` can stand for each: an arm is what is left.
pub(crate) fn play_three<'t, A: Inserter, B: Inserter, C: Inserter>(
    rt: &HostRuntime,
    a: &mut A,
    b: &mut B,
    c: &mut C,
    first: u8,
    table: &'t [u8],
) -> anyhow::Result<&'t [u8]> {
    let mut rest = table;
    while !rest.is_empty() {
        let (line, later) = cut_line(rest);
        match line.first().and_then(|letter| letter.checked_sub(first)) {
            Some(0) => answer(rt, a, line)?,
            Some(1) => answer(rt, b, line)?,
            Some(2) => answer(rt, c, line)?,
            _ => return Ok(rest),
        }
        rest = later;
    }
    Ok(rest)
}
