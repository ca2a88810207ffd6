// The releases: the next one decoded once, whether it is due at a tick, and whether the run stops.
ghost use Rattle.std.specs.Prelude.{◌≡◌, ◌<◌};
ghost use Rattle.model.specs.Command.{command_at};
ghost use Rattle.arrivals.specs.Releases.{pending_by, pending_at, coming_by, stops_by, until_of, idled_by};

use commands::Command;
use commands::ceilings::SheetCeilings;

// The next release, decoded once: its tick and task, and the place after it.
#[derive(Clone, Copy)]
pub struct Pending {
    pub tick: u32,
    pub task: u8,
    pub after: usize,
}

// The next release at a tick: none, one of a later tick, or one due now, with its task and the place where the next one stands.
#[derive(Clone, Copy)]
pub enum Coming {
    Nothing,
    Later,
    Due(u8, usize),
}

// The release and the place after it, as `coming_at` reads them.
fn pending_by(command: Command, after: usize) -> Option<Pending>
    ensures { result ≡ pending_by command after }
{
    match command {
        Command::Release(release) => Some(Pending {
            tick: release.tick,
            task: release.task,
            after,
        }),
        _ => None,
    }
}

pub fn pending_at(sheet: &[u8], place: usize) -> Option<Pending>
    ensures { result ≡ pending_at (command_at sheet.now place) }
{
    let Ok((command, after)) = commands::decode(sheet, place) else {
        return None;
    };
    pending_by(command, after)
}

// Ahead of a tick's releases, one that waits behind a job that has ended.
pub fn coming_at(next: Option<Pending>, tick: u32, ready: Option<u8>, place: usize) -> Coming
    ensures { result ≡ coming_by ready place next tick }
{
    match (ready, next) {
        (Some(task), _) => Coming::Due(task, place),
        (None, Some(release)) if release.tick == tick => Coming::Due(release.task, release.after),
        (None, Some(_)) => Coming::Later,
        (None, None) => Coming::Nothing,
    }
}

// No job is unfinished and no release is to come.
pub fn stops(release: Coming, mask: u32) -> bool
    ensures { result ≡ stops_by release mask }
{
    matches!(release, Coming::Nothing) && mask == 0
}

// The tick up to which no release comes, at most the limit.
pub fn until(next: Option<Pending>, limit: u32) -> u32
    ensures { result ≡ until_of next limit }
{
    next.map_or(limit, |release| release.tick.min(limit))
}

// After an idle tick: the tick up to which no release comes, for all before it are idle.
pub fn idled(next: Option<Pending>, tick: u32, limit: u32) -> u32
    requires { tick < limit }
    ensures { result ≡ idled_by next tick limit }
{
    until(next, limit).max(tick + 1)
}
