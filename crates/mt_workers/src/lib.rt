//! The number of workers of a command, as a type.
#![tactic(auto)]

ghost use Rattle.std.specs.Prelude.{◌≡◌, ◌<◌, ◌≤◌};
ghost use Rattle.std.specs.Option.{option_map};
ghost use Rattle.mt_workers.specs.Workers.{workers_of};

/// The workers of a command, at most; at least 1.
pub const MAX_WORKERS: u64 = 64;

/// A number of workers, from 1 to 64.
#[derive(Clone, Copy)]
pub struct Workers {
    pub count: u64,
    ghost some: { 0 < count },
    ghost few: { count ≤ 64 },
}

impl Workers {
    /// That many workers, if a command may have them.
    pub fn new(count: u64) -> Option<Workers>
        ensures { option_map (λ workers. workers.count) result ≡ workers_of count }
    {
        if 1 <= count && count <= MAX_WORKERS {
            Some(Workers { count })
        } else {
            None
        }
    }
}
