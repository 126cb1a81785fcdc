//! What a line of a script asks.
ghost use Rattle.std.specs.Prelude.{◌≡◌};
ghost use Rattle.std.specs.Option.{option_map};
ghost use Rattle.text_parts.specs.Text.{texts_of};
ghost use Rattle.workload_drive.specs.Script.{deed_text, deed_of, named_act_of, is_works};
ghost use Rattle.workload_drive.specs.Calls.{first_of, second_of};
ghost use Rattle.workload_drive.specs.ForProofs.{named_act_in};

use crate::statement::marked;
use dep_index::Call;
use text_parts::is_same;

/// A change of the table, of one call or two.
#[derive(Clone, Copy, Drop)]
pub(crate) enum Change {
    /// The begin of a load and, if that is ok, its end.
    Load,
    /// The begin of a removal and, if that is ok, its end.
    Remove,
    /// The begin of a drain.
    Drain,
    /// The end of a removal or a drain.
    Finish,
    /// A removal or a drain is called off.
    Keep,
}

/// What a worker does to a module.
#[derive(Clone, Copy, Drop)]
pub(crate) enum Deed {
    Get,
    Put,
    Query,
    Make(Change),
}

/// What a line does to a module.
#[derive(Clone, Copy, Drop)]
pub(crate) enum Act {
    /// A change that is made before any worker begins.
    Opens(Change),
    /// A deed of the worker of this number.
    Works(usize, Deed),
}

/// What a line asks: an act on the module of a name.
#[derive(Clone, Copy, Drop)]
pub(crate) struct NamedAct<'a> {
    pub(crate) act: Act,
    pub(crate) name: &'a [u8],
}

impl Change {
    /// Its first call.
    pub(super) fn first(self, slot: usize) -> Call
        ensures { result ≡ first_of self slot }
    {
        match self {
            Change::Load => Call::BeginLoad(slot),
            Change::Remove => Call::BeginRemove(slot),
            Change::Drain => Call::BeginDrain(slot),
            Change::Finish => Call::EndRemove(slot),
            Change::Keep => Call::CancelRemove(slot),
        }
    }

    /// The call that is made if the first was Done.
    pub(super) fn second(self, slot: usize) -> Option<Call>
        ensures { result ≡ second_of self slot }
    {
        match self {
            Change::Load => Some(Call::EndLoad(slot, true)),
            Change::Remove => Some(Call::EndRemove(slot)),
            Change::Drain | Change::Finish | Change::Keep => None,
        }
    }
}

impl Act {
    /// Whether a worker does it.
    pub(crate) fn is_works(self) -> bool
        ensures { result ≡ is_works self }
    {
        matches!(self, Act::Works(_, _))
    }
}

const DEEDS: [Deed; 8] = [
    Deed::Get,
    Deed::Put,
    Deed::Query,
    Deed::Make(Change::Load),
    Deed::Make(Change::Remove),
    Deed::Make(Change::Drain),
    Deed::Make(Change::Finish),
    Deed::Make(Change::Keep),
];

impl Deed {
    /// The word of the deed.
    pub(super) fn text(self) -> &'static [u8]
        ensures { result.now ≡ deed_text self }
    {
        match self {
            Deed::Get => b"get",
            Deed::Put => b"put",
            Deed::Query => b"query",
            Deed::Make(Change::Load) => b"load",
            Deed::Make(Change::Remove) => b"remove",
            Deed::Make(Change::Drain) => b"drain",
            Deed::Make(Change::Finish) => b"finish",
            Deed::Make(Change::Keep) => b"keep",
        }
    }
}

fn deed_of(verb: &[u8]) -> Option<Deed>
    ensures { result ≡ deed_of verb.now }
{
    DEEDS
        .iter()
        .copied()
        .find(|deed| is_same(verb, deed.text()))
}

/// What a line of these words asks, or `None` if it has no form.
pub(crate) fn named_act_of<'a>(words: &[&'a [u8]]) -> Option<NamedAct<'a>>
    ensures { option_map named_act_in result ≡ named_act_of (texts_of words.now) }
{
    let (act, name) = match words {
        [verb, name] => match deed_of(verb)? {
            Deed::Make(change) => (Act::Opens(change), name),
            _ => return None,
        },
        [worker, verb, name] => {
            let worker = marked(b'w', worker)? as usize;
            (Act::Works(worker, deed_of(verb)?), name)
        }
        _ => return None,
    };
    Some(NamedAct { act, name })
}
