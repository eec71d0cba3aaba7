// What scopes, symbols and references are.
ghost use Rattle.std.specs.Prelude.{⊤, [], ◌∷◌, codes};
ghost use Rattle.scope_rules.specs.ScopeFlags as scope_flag;
ghost use Rattle.scope_rules.specs.SymbolFlags as symbol_flag;
ghost use Rattle.scope_rules.specs.ReferenceFlags as reference_flag;

use bitflags::{Flag, Flags, bitflag_items};

/// What a scope is. Classes and the values of fields have none of the bits that name a form.
#[derive(Clone, Copy, Debug, PartialEq, Eq)]
pub struct ScopeFlags(u16);

bitflag_items! {
    impl ScopeFlags: u16 {
        const StrictMode = 1;
        const Top = 2;
        const Function = 4;
        const Arrow = 8;
        const ClassStaticBlock = 16;
        const Constructor = 32;
        const Block = 64;
        const Catch = 128;
        const With = 256;
        const DirectEval = 512;
    }
}

impl Flags for ScopeFlags {
    type Bits = u16;

    ghost exact = { ⊤ };

    ghost table = { (codes "StrictMode", scope_flag.strict_mode) ∷ (codes "Top", scope_flag.top) ∷ (codes "Function", scope_flag.function) ∷ (codes "Arrow", scope_flag.arrow) ∷ (codes "ClassStaticBlock", scope_flag.class_static_block) ∷ (codes "Constructor", scope_flag.constructor) ∷ (codes "Block", scope_flag.block) ∷ (codes "Catch", scope_flag.catch) ∷ (codes "With", scope_flag.with_statement) ∷ (codes "DirectEval", scope_flag.direct_eval) ∷ [] };

    ghost set_of = { λ f. f.0 };

    fn flags<'a>() -> &'a [Flag<ScopeFlags>] {
        ScopeFlags::FLAGS
    }

    fn bits(&self) -> u16 {
        self.0
    }

    fn from_bits_retain(bits: u16) -> ScopeFlags {
        ScopeFlags(bits)
    }
}

/// How a name is declared: the bits of all its declarations together.
#[derive(Clone, Copy, Debug, PartialEq, Eq)]
pub struct SymbolFlags(u8);

bitflag_items! {
    impl SymbolFlags: u8 {
        const FunctionScopedVariable = 1;
        const BlockScopedVariable = 2;
        const ConstVariable = 4;
        const Class = 8;
        const CatchVariable = 16;
        const Function = 32;
        const Import = 64;
    }
}

impl Flags for SymbolFlags {
    type Bits = u8;

    ghost exact = { ⊤ };

    ghost table = { (codes "FunctionScopedVariable", symbol_flag.function_scoped_variable) ∷ (codes "BlockScopedVariable", symbol_flag.block_scoped_variable) ∷ (codes "ConstVariable", symbol_flag.const_variable) ∷ (codes "Class", symbol_flag.class) ∷ (codes "CatchVariable", symbol_flag.catch_variable) ∷ (codes "Function", symbol_flag.function) ∷ (codes "Import", symbol_flag.import) ∷ [] };

    ghost set_of = { λ f. f.0 };

    fn flags<'a>() -> &'a [Flag<SymbolFlags>] {
        SymbolFlags::FLAGS
    }

    fn bits(&self) -> u8 {
        self.0
    }

    fn from_bits_retain(bits: u8) -> SymbolFlags {
        SymbolFlags(bits)
    }
}

/// How a name is used. `MemberWriteTarget` stands beside `Read` on the object of an assigned member.
#[derive(Clone, Copy, Debug, PartialEq, Eq)]
pub struct ReferenceFlags(u8);

bitflag_items! {
    impl ReferenceFlags: u8 {
        const Read = 1;
        const Write = 2;
        const MemberWriteTarget = 4;
    }
}

impl Flags for ReferenceFlags {
    type Bits = u8;

    ghost exact = { ⊤ };

    ghost table = { (codes "Read", reference_flag.read) ∷ (codes "Write", reference_flag.write) ∷ (codes "MemberWriteTarget", reference_flag.member_write_target) ∷ [] };

    ghost set_of = { λ f. f.0 };

    fn flags<'a>() -> &'a [Flag<ReferenceFlags>] {
        ReferenceFlags::FLAGS
    }

    fn bits(&self) -> u8 {
        self.0
    }

    fn from_bits_retain(bits: u8) -> ReferenceFlags {
        ReferenceFlags(bits)
    }
}
