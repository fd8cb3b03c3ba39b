ghost use Rattle.std.specs.Prelude.{◌≡◌, ◌+◌, ◌<◌, ◌≤◌, ◌^◌, length, nat_le, nat_lt, is_some, Some, None, IfSome, if◌then◌else◌};
ghost use Rattle.search_workers.specs.Outlooks.{told};
ghost use Rattle.tp_laws.specs.Instants.{is_instant_item, of_instants, outlook_of as outlook_in, outlook_start, outlook_with, outlook_after, tick_of as tick_in, ticks_before as ticks_up_to, least_tick, joined_deadline as joined_by, opened_deadline as opened_by, opened_by as opened_at, deadline_with as deadline_by};
ghost use Rattle.tp_spec.specs.Items.{is_durative as lasts};
ghost use Rattle.tp_spec.specs.Lists.{some_and};

use tp_laws::outlooks_by_mark;
use tp_spec::{Item, Kind, Limits, Mark, Problem};

/// What the deadlines of a word of instants with one mark more need of the word: how many groups
/// and starts it has, the group of its first start, how many timed items it has, and the group of
/// the last of them. Groups are counted from 0.
#[derive(Clone, Copy, Debug, PartialEq, Eq)]
pub struct Outlook {
    opened: u64,
    starts: u64,
    first: Option<u64>,
    timed: usize,
    last: Option<u64>,
}

/// The outlook of a word whose acts are all of instant actions, and none of any other word. It
/// walks the word once.
pub fn outlook_of(problem: &Problem, word: &[Mark]) -> Option<Outlook>
    requires { length word.now < 2 ^ 31 }
    ensures instants { is_some result ≡ of_instants problem.now word.now }
    ensures known { IfSome result (λ o. told o ≡ outlook_in problem.now word.now) }
{
    outlooks_by_mark();
    let mut outlook = start();
    for mark in word {
        if !is_instant(problem, mark.item) {
            return None;
        }
        outlook = after(outlook, *mark);
    }
    Some(outlook)
}

/// The outlook of the empty word.
fn start() -> Outlook
    ensures { told result ≡ outlook_start }
{
    Outlook {
        opened: 0,
        starts: 0,
        first: None,
        timed: 0,
        last: None,
    }
}

/// The outlook of a word with one mark more.
fn after(outlook: Outlook, mark: Mark) -> Outlook
    requires opened { outlook.opened < 2 ^ 31 }
    requires starts { outlook.starts < 2 ^ 31 }
    requires timed { outlook.timed < 2 ^ 31 }
    ensures longer { told result ≡ outlook_after (told outlook) mark }
    ensures opened { result.opened ≤ outlook.opened + 1 }
    ensures starts { result.starts ≤ outlook.starts + 1 }
    ensures timed { result.timed ≤ outlook.timed + 1 }
{
    if mark.fresh {
        with_item(outlook, outlook.opened + 1, outlook.opened, mark.item)
    } else {
        let group = outlook.opened.saturating_sub(1);
        with_item(outlook, outlook.opened, group, mark.item)
    }
}

/// The outlook with an item of a group more, where so many groups are open then.
fn with_item(outlook: Outlook, opened: u64, group: u64, item: Item) -> Outlook
    requires starts { outlook.starts < 2 ^ 31 }
    requires timed { outlook.timed < 2 ^ 31 }
    ensures longer { told result ≡ outlook_with opened group (told outlook) item }
    ensures opened { result.opened ≡ opened }
    ensures starts { result.starts ≤ outlook.starts + 1 }
    ensures timed { result.timed ≤ outlook.timed + 1 }
{
    let Outlook {
        opened: _,
        starts,
        first,
        timed,
        last,
    } = outlook;
    match item {
        Item::TimedAt(_) => Outlook {
            opened,
            starts,
            first,
            timed: timed + 1,
            last: Some(group),
        },
        Item::End(_) => Outlook {
            opened,
            starts,
            first,
            timed,
            last,
        },
        Item::Start(_) => Outlook {
            opened,
            starts: starts + 1,
            first: Some(first.unwrap_or(group)),
            timed,
            last,
        },
    }
}

/// Whether an item is a timed item or the start of an instant action.
pub fn is_instant(problem: &Problem, item: Item) -> bool
    ensures { result ≡ is_instant_item problem.now item }
{
    match item {
        Item::TimedAt(_) => true,
        Item::End(_) => false,
        Item::Start(action) => !is_durative(problem, action),
    }
}

fn is_durative(problem: &Problem, action: u32) -> bool
    ensures { result ≡ lasts problem.now action }
{
    match problem.actions.as_slice().get(action as usize) {
        Some(found) => match found.kind {
            Kind::Instant => false,
            Kind::Durative { .. } => true,
        },
        None => false,
    }
}

impl Outlook {
    /// The deadline, in ticks, of the word with one mark more, by the word's own. None where the
    /// longer word is live at no clock.
    pub fn deadline_with(
        &self,
        problem: &Problem,
        limits: &Limits,
        deadline: u64,
        mark: Mark,
    ) -> Option<u64>
        requires { limits.now.horizon ≤ 2 ^ 40 }
        ensures { result ≡ deadline_by problem.now limits.now (told self.now) deadline mark }
    {
        match mark.item {
            Item::TimedAt(k) => {
                if mark.fresh && tick_of(problem, k as usize) <= limits.horizon {
                    Some(deadline)
                } else {
                    None
                }
            }
            Item::End(_) => None,
            Item::Start(_) => {
                if self.starts >= limits.actions as u64 {
                    None
                } else if mark.fresh {
                    self.opened_with(problem, limits, deadline)
                } else {
                    Some(self.joined_deadline(problem, deadline))
                }
            }
        }
    }

    /// The same of a start that opens a group, for which an act is left.
    fn opened_with(&self, problem: &Problem, limits: &Limits, deadline: u64) -> Option<u64>
        requires { limits.now.horizon ≤ 2 ^ 40 }
        ensures { result ≡ (if nat_lt (least_tick problem.now (told self.now))
            (ticks_up_to problem.now limits.now self.now.timed)
            then Some (opened_by problem.now limits.now (told self.now) deadline) else None) }
    {
        let before = ticks_before(problem, limits, self.timed);
        if self.has_tick(problem, before) {
            Some(self.opened_deadline(before.saturating_sub(1), deadline))
        } else {
            None
        }
    }

    /// Whether a new group finds a tick before this one.
    fn has_tick(&self, problem: &Problem, before: u64) -> bool
        ensures { result ≡ nat_lt (least_tick problem.now (told self.now)) before }
    {
        match self.last {
            Some(group) => {
                let tick = tick_of(problem, self.timed.saturating_sub(1));
                self.opened.saturating_sub(group) < before.saturating_sub(tick)
            }
            None => self.opened < before,
        }
    }

    /// The deadline where a start opens a group, whose latest tick this is.
    fn opened_deadline(&self, late: u64, deadline: u64) -> u64
        ensures { result ≡ opened_at deadline late self.now.opened self.now.last self.now.first }
    {
        match self.first {
            Some(first) => {
                if self.is_held(first) {
                    deadline
                } else {
                    late.saturating_sub(self.opened.saturating_sub(first))
                }
            }
            None => late,
        }
    }

    /// Whether a timed item stands in this group or behind it.
    fn is_held(&self, group: u64) -> bool
        ensures { result ≡ some_and self.now.last (nat_le group) }
    {
        match self.last {
            Some(last) => group <= last,
            None => false,
        }
    }

    /// The deadline where a start joins the last group.
    fn joined_deadline(&self, problem: &Problem, deadline: u64) -> u64
        ensures { result ≡ joined_by problem.now (told self.now) deadline }
    {
        match self.first {
            Some(_) => deadline,
            None => tick_of(problem, self.timed.saturating_sub(1)),
        }
    }
}

/// The tick of a timed item, and 0 past them all.
fn tick_of(problem: &Problem, k: usize) -> u64
    ensures { result ≡ tick_in problem.now k }
{
    match problem.timed.as_slice().get(k) {
        Some(item) => item.tick,
        None => 0,
    }
}

/// How many ticks there are up to the horizon and before a timed item, if there is one.
fn ticks_before(problem: &Problem, limits: &Limits, k: usize) -> u64
    requires { limits.now.horizon ≤ 2 ^ 40 }
    ensures { result ≡ ticks_up_to problem.now limits.now k }
{
    match problem.timed.as_slice().get(k) {
        Some(item) => item.tick.min(limits.horizon + 1),
        None => limits.horizon + 1,
    }
}
