//! The events of workers in a replay.
ghost use Rattle.std.specs.Prelude.{◌≡◌, ◌≤◌};
ghost use Rattle.spec_core.specs.Replays.{worker_event};

use crate::event::Event;
pub use draw_numbers::{draw_start, next_draw};

/// Returns the event that a draw chooses, for so many workers and instances.
pub fn worker_event(x: u64, workers: u32, instances: u32) -> Event
    requires workers { 1 ≤ workers }
    requires instances { 1 ≤ instances }
    ensures { result ≡ worker_event x workers instances }
{
    let worker = (x % u64::from(workers)) as u32;
    let rest = x / u64::from(workers);
    let choice = rest / 8;
    match rest % 8 {
        0..=2 => Event::Take {
            worker,
            instance: (choice % u64::from(instances)) as u32,
        },
        3..=5 => Event::Post { worker, cells: 16 },
        6 => Event::Steal {
            worker,
            from: (choice % u64::from(workers)) as u32,
        },
        _ => Event::Back { worker },
    }
}
