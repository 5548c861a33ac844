//! What a client may ask for more of, by a number.

ghost use Rattle.std.specs.Prelude.{◌≡◌, Some, IfSome};
ghost use Rattle.dap_views.specs.References.{IsShort, number_of};

/// Something that has variables.
///
/// Its number is above 0 and below 2^31, as the protocol asks, and it means the same at each state of the run.
#[derive(Clone, Copy, PartialEq, Eq, Debug, Drop)]
pub enum Reference {
    /// The entries that belong to the call at a place, that of `MAIN` at 0.
    Entries(u16),
    /// All entries.
    Stack,
    /// The numbers of the run.
    Run,
    /// The values of the entry at a depth, 0 at the top.
    Values(u16),
}

impl Reference {
    /// The number of that of `Stack`, which is the first.
    const STACK: u64 = 1;

    /// The number of that of `Run`.
    const RUN: u64 = 2;

    /// The number of the first call.
    const ENTRIES: u64 = 65_536;

    /// The number of the entry at the top.
    const VALUES: u64 = 131_072;

    /// The number.
    pub fn number(self) -> u64
        ensures { result ≡ number_of self }
    {
        match self {
            Reference::Stack => Reference::STACK,
            Reference::Run => Reference::RUN,
            Reference::Entries(place) => Reference::ENTRIES + u64::from(place),
            Reference::Values(depth) => Reference::VALUES + u64::from(depth),
        }
    }

    /// What has this number. `None` if it is the number of nothing.
    pub fn of(number: u64) -> Option<Reference>
        ensures each { (reference : Reference) → IsShort reference → number_of reference ≡ number
            → result ≡ Some reference }
        ensures own { IfSome result (λ reference. number_of reference ≡ number) }
    {
        match number {
            Reference::STACK => Some(Reference::Stack),
            Reference::RUN => Some(Reference::Run),
            65_536..=131_071 => Some(Reference::Entries((number - Reference::ENTRIES) as u16)),
            131_072..=196_607 => Some(Reference::Values((number - Reference::VALUES) as u16)),
            _ => None,
        }
    }

    /// That of the entries of the call at a place. `None` if no run has as many calls.
    pub(crate) fn of_call(place: usize) -> Option<Reference> {
        Some(Reference::Entries(short(place as u64)?))
    }

    /// That of the values of the entry at a depth. `None` if no stack has as many entries.
    pub(crate) fn of_entry(depth: usize) -> Option<Reference> {
        Some(Reference::Values(short(depth as u64)?))
    }
}

/// A number that has 16 bits. `None` if it has more.
fn short(number: u64) -> Option<u16> {
    match u16::try_from(number) {
        Ok(number) => Some(number),
        Err(_) => None,
    }
}
