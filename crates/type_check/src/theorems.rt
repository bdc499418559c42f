// Theorems of typing.
ghost use Rattle.std.specs.Prelude.{◌≡◌, ℕ, List, [], false, true, ◌↔◌};
ghost use Rattle.fip_trees.specs.Tree.{Program, Block};
ghost use Rattle.type_check.specs.World.{World};
ghost use Rattle.type_check.specs.Scope.{Scope};
ghost use Rattle.type_check.specs.Typing.{IsTyped, IsFilled, TypesBlock};
ghost use Rattle.type_check.specs.Faults.{type_faults, filled};

/// A program breaks none of the rules exactly where all of it is typed, and then it is well typed by its filled slots.
pub fn typed_exactly()
    ensures both { (p : Program) → IsTyped p ↔ (type_faults p ≡ []) }
    ensures filled { (p : Program) → IsTyped p → IsFilled (filled p) }
{}

/// A block has one list of types at most, where none are expected.
pub fn types_once()
    ensures { (w : World) (s : Scope) (d : Block) (ts us : List ℕ) → TypesBlock false w s false d ts → TypesBlock
        false w s false d us → ts ≡ us }
{}
