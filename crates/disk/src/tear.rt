// Junk in the unsynced places of a file.
ghost use Rattle.std.specs.Prelude.{◌≡◌};
ghost use Rattle.disk.specs.Crashes.{makes_unsynced, is_unsynced, torn};

use crate::PendingWrite;

fn makes_unsynced(touch: PendingWrite, end: u64, place: u64) -> bool
    ensures { result ≡ makes_unsynced touch end place }
{
    match touch {
        PendingWrite::Wrote { at, len } => (at <= place && place - at < len) || end <= place,
        PendingWrite::Cut { len } => len <= place,
    }
}

fn is_unsynced(end: usize, touches: &[PendingWrite], place: usize) -> bool
    ensures { result ≡ is_unsynced end touches.now place }
{
    touches
        .iter()
        .any(|touch| makes_unsynced(*touch, end as u64, place as u64))
}

// Writes the repeated junk to the unsynced places.
pub fn tear(bytes: &mut [u8], end: usize, touches: &[PendingWrite], junk: &[u8])
    ensures { bytes.new ≡ torn end touches.now junk.now bytes.old }
{
    if junk.is_empty() {
        return;
    }
    let mut next = 0;
    for place in 0..bytes.len() {
        if is_unsynced(end, touches, place) {
            bytes[place] = junk[next];
            next = (next + 1) % junk.len();
        }
    }
}
