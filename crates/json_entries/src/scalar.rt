// Fields that are no nodes.
ghost use Rattle.std.specs.Prelude.{◌≡◌, slice_get};
ghost use Rattle.std.specs.Option.{option_map};
ghost use Rattle.json_entries.specs.Entry.{scalar_of, scalar_list};

use js_syntax::{Ident, Key, LiteralValue, ModuleName, RegExpText, TemplateText, Text};

/// A field of a node that is no node.
#[derive(Clone, Copy)]
pub enum Scalar<'a> {
    Text(&'a str),
    Flag(bool),
    Value(&'a LiteralValue),
    Mark(bool),
    Name(&'a Ident),
    NameOrNull(&'a Option<Ident>),
    ModuleName(&'a ModuleName),
    ModuleNameOrNull(&'a Option<ModuleName>),
    Source(&'a Text),
    Key(&'a Key),
    Property(&'a Key),
    TemplateText(&'a TemplateText),
    RegExpText(&'a RegExpText),
}

/// The fields of a node that are no nodes, in reading order.
#[derive(Clone, Copy)]
pub enum Scalars<'a> {
    None,
    One(Scalar<'a>),
    Two(Scalar<'a>, Scalar<'a>),
    Three(Scalar<'a>, Scalar<'a>, Scalar<'a>),
}

impl<'a> Scalars<'a> {
    /// The one at this place.
    pub fn get(self, at: u8) -> Option<Scalar<'a>>
        ensures { option_map scalar_of result ≡ slice_get (scalar_list self.entry) at }
    {
        match self {
            Scalars::None => None,
            Scalars::One(first) => match at {
                0 => Some(first),
                _ => None,
            },
            Scalars::Two(first, second) => match at {
                0 => Some(first),
                1 => Some(second),
                _ => None,
            },
            Scalars::Three(first, second, third) => match at {
                0 => Some(first),
                1 => Some(second),
                2 => Some(third),
                _ => None,
            },
        }
    }
}
