ghost use Rattle.std.specs.Prelude.{◌≡◌};
ghost use Rattle.pddl_tokens.specs.Numbers.{IsScale};
ghost use Rattle.pddl_tokens.specs.Trees.{trees_of};
ghost use Rattle.pddl_parts.specs.First.{first};
ghost use Rattle.pddl_parts.specs.Settings.{setting_of};
ghost use Rattle.domain_faults.specs.Durations.{is_bound, follows, variable_faults, bounded_faults, bound_faults, last_bound_faults, start_faults, started_faults, constraint_faults, constraints_faults, duration_faults};

use pddl_parts::{
    Context, Fault, Kind, Place, earlier, extra_fault, fault, last_operand_fault, unfit_list,
    unfit_word,
};
use pddl_tokens::{Form, Head, Word, head_of};

/// Whether a word bounds a duration.
pub fn is_bound(text: &[u8]) -> bool
    ensures { result ≡ is_bound text.now }
{
    text == b"=".as_slice() || text == b"<=".as_slice() || text == b">=".as_slice()
}

/// Whether this word comes first.
pub fn follows(word: &[u8], forms: &[Form]) -> bool
    ensures { result ≡ follows word.now (trees_of forms.now) }
{
    match head_of(forms) {
        Head::Missing | Head::List { .. } => false,
        Head::Word(first, _) => first.text.as_slice() == word,
    }
}

fn variable_fault(word: &Word) -> Option<Fault>
    ensures { result ≡ first (variable_faults word.now.at word.now.text) }
{
    if word.text.as_slice() == b"?duration".as_slice() {
        None
    } else {
        unfit_word(Place::Duration, word)
    }
}

/// The first fault behind the head of a bound.
#[tactic(auto, using(pddl_parts::proofs::Firsts::first_append))]
fn bounded_fault(context: &Context<'_>, close: u32, members: &[Form]) -> Option<Fault>
    requires { IsScale context.now.scale }
    ensures { result ≡ first (bounded_faults (setting_of context.now) close
        (trees_of members.now)) }
{
    match head_of(members) {
        Head::Missing => fault(Kind::Shape, close),
        Head::Word(word, rest) => {
            let value = last_operand_fault(context, close, rest);
            earlier(variable_fault(word), value)
        }
        Head::List {
            at,
            parts,
            rest,
            ..
        } => {
            let value = last_operand_fault(context, close, rest);
            earlier(unfit_list(Place::Duration, at, parts), value)
        }
    }
}

/// The first fault of a list that is to be a bound without a time.
fn bound_fault(context: &Context<'_>, at: u32, close: u32, parts: &[Form]) -> Option<Fault>
    requires { IsScale context.now.scale }
    ensures { result ≡ first (bound_faults (setting_of context.now) at close (trees_of parts.now)) }
{
    match head_of(parts) {
        Head::Missing | Head::List { .. } => unfit_list(Place::Duration, at, parts),
        Head::Word(head, rest) => {
            let text = head.text.as_slice();
            if is_bound(text) {
                bounded_fault(context, close, rest)
            } else if text == b"at".as_slice() && follows(b"end", rest) {
                fault(Kind::LeftOut, head.at)
            } else {
                unfit_list(Place::Duration, at, parts)
            }
        }
    }
}

/// The first fault where a bound is to be the last member.
#[tactic(auto, using(pddl_parts::proofs::Firsts::first_append))]
fn last_bound_fault(context: &Context<'_>, close: u32, members: &[Form]) -> Option<Fault>
    requires { IsScale context.now.scale }
    ensures { result ≡ first (last_bound_faults (setting_of context.now) close
        (trees_of members.now)) }
{
    match head_of(members) {
        Head::Missing => fault(Kind::Shape, close),
        Head::Word(word, rest) => earlier(
            unfit_word(Place::Duration, word),
            extra_fault(Place::Duration, rest),
        ),
        Head::List {
            at,
            close,
            parts,
            rest,
        } => {
            let bound = bound_fault(context, at, close, parts);
            earlier(bound, extra_fault(Place::Duration, rest))
        }
    }
}

fn start_fault(word: &Word) -> Option<Fault>
    ensures { result ≡ first (start_faults word.now.at word.now.text) }
{
    if word.text.as_slice() == b"start".as_slice() {
        None
    } else {
        unfit_word(Place::Duration, word)
    }
}

/// The first fault behind `at`, where `end` does not follow.
#[tactic(auto, using(pddl_parts::proofs::Firsts::first_append))]
fn started_fault(context: &Context<'_>, close: u32, members: &[Form]) -> Option<Fault>
    requires { IsScale context.now.scale }
    ensures { result ≡ first (started_faults (setting_of context.now) close
        (trees_of members.now)) }
{
    match head_of(members) {
        Head::Missing => fault(Kind::Shape, close),
        Head::Word(word, rest) => {
            let bound = last_bound_fault(context, close, rest);
            earlier(start_fault(word), bound)
        }
        Head::List {
            at,
            parts,
            rest,
            ..
        } => {
            let bound = last_bound_fault(context, close, rest);
            earlier(unfit_list(Place::Duration, at, parts), bound)
        }
    }
}

/// The first fault of a list that is to be a bound, at the start or without a time.
fn constraint_fault(context: &Context<'_>, at: u32, close: u32, parts: &[Form]) -> Option<Fault>
    requires { IsScale context.now.scale }
    ensures { result ≡ first (constraint_faults (setting_of context.now) at close
        (trees_of parts.now)) }
{
    match head_of(parts) {
        Head::Missing | Head::List { .. } => { bound_fault(context, at, close, parts) }
        Head::Word(head, rest) => {
            if head.text.as_slice() == b"at".as_slice() {
                if follows(b"end", rest) {
                    fault(Kind::LeftOut, head.at)
                } else {
                    started_fault(context, close, rest)
                }
            } else {
                bound_fault(context, at, close, parts)
            }
        }
    }
}

/// The first fault of some bounds.
#[tactic(auto, using(pddl_parts::proofs::Firsts::first_onto))]
fn constraints_fault(context: &Context<'_>, forms: &[Form]) -> Option<Fault>
    requires { IsScale context.now.scale }
    ensures { result ≡ first (constraints_faults (setting_of context.now) (trees_of forms.now)) }
{
    let mut best = None;
    let mut rest = forms;
    'bounds: loop {
        match head_of(rest) {
            Head::Missing => return best,
            Head::Word(word, more) => {
                best = earlier(best, unfit_word(Place::Duration, word));
                rest = more;
            }
            Head::List {
                at,
                close,
                parts,
                rest: more,
            } => {
                let bound = constraint_fault(context, at, close, parts);
                best = earlier(best, bound);
                rest = more;
            }
        }
    }
}

/// The first fault of a list that is to bound a durative action's duration (PDDL 2.1, duration
/// constraints), in the context of a duration: nothing, one bound, or a conjunction of bounds. It
/// stands at `at` and closes at `close`.
pub fn duration_fault(context: &Context<'_>, at: u32, close: u32, parts: &[Form]) -> Option<Fault>
    requires { IsScale context.now.scale }
    ensures { result ≡ first (duration_faults (setting_of context.now) at close
        (trees_of parts.now)) }
{
    match head_of(parts) {
        Head::Missing => None,
        Head::List { .. } => unfit_list(Place::Duration, at, parts),
        Head::Word(head, rest) => {
            if head.text.as_slice() == b"and".as_slice() {
                constraints_fault(context, rest)
            } else {
                constraint_fault(context, at, close, parts)
            }
        }
    }
}
