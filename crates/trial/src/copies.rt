// Work on a copy of a board.
use reference_board::board;
use trial_board::cells;

// Does it on a copy, which goes afterwards.
pub fn on_copy<R, F: FnOnce(&mut [u32; board::SIZE]) -> R>(b: &[u32; board::SIZE], work: F) -> R
    requires { F.IsAlwaysCallable work }
{
    let mut c = [0u32; board::SIZE];
    cells::keep(&mut c, b);
    work(&mut c)
}

// Does it on a copy, and takes the counts back: only this one changes the board that it is given.
pub fn count_on_copy<R, F: FnOnce(&mut [u32; board::SIZE]) -> R>(
    b: &mut [u32; board::SIZE],
    work: F,
) -> R
    requires { F.IsAlwaysCallable work }
{
    let mut c = [0u32; board::SIZE];
    cells::keep(&mut c, b);
    let made = work(&mut c);
    cells::carry(b, &c);
    made
}
