// What is looked for when a relocation names a symbol, by the symbol's kind and place: one grid for extern names and for targets, from
// get_coff_extern_names and get_coff_fixups.
#![tactic(auto)]

ghost use Rattle.std.specs.Prelude.{◌≡◌};
ghost use Rattle.rules.specs.Rule.{data_rule, section_rule, label_rule, unknown_rule, rule_of};

use kinds::{Place, SymbolKind};

// The home of the section of that number; a slot for the name, which goes among the externs; its slot, if it is there; the section of its
// name, else the slot; or refusal 10.
#[derive(Clone, Copy, Debug, PartialEq, Eq)]
pub enum Rule {
    Section(u32),
    Extern,
    Slot,
    Name,
    Refused,
}

fn data_rule(p: Place) -> Rule
    ensures { result ≡ data_rule p }
{
    match p {
        Place::In(n) => Rule::Section(n),
        Place::Undefined | Place::Common | Place::Other => Rule::Extern,
        Place::Absolute | Place::Nowhere => Rule::Refused,
    }
}

fn section_rule(p: Place) -> Rule
    ensures { result ≡ section_rule p }
{
    match p {
        Place::In(n) => Rule::Section(n),
        Place::Undefined | Place::Common => Rule::Name,
        Place::Other | Place::Absolute | Place::Nowhere => Rule::Refused,
    }
}

fn label_rule(p: Place) -> Rule
    ensures { result ≡ label_rule p }
{
    match p {
        Place::In(n) => Rule::Section(n),
        _ => Rule::Refused,
    }
}

fn unknown_rule(p: Place) -> Rule
    ensures { result ≡ unknown_rule p }
{
    match p {
        Place::Common => Rule::Extern,
        _ => Rule::Slot,
    }
}

// By kind and place.
pub fn rule_of(kind: SymbolKind, p: Place) -> Rule
    ensures { result ≡ rule_of kind p }
{
    match kind {
        SymbolKind::Data | SymbolKind::Text => data_rule(p),
        SymbolKind::Section => section_rule(p),
        SymbolKind::Label => label_rule(p),
        SymbolKind::Unknown => unknown_rule(p),
        SymbolKind::File => Rule::Refused,
    }
}
