// Laws of the components.
ghost use Rattle.std.specs.Prelude.{◌≡◌, ◌∷◌, [], ℕ, List};
ghost use Rattle.std.specs.FinMap as map;
ghost use Rattle.fc_rows.specs.Rowed.{RowMap};
ghost use Rattle.fc_path.specs.declared.oper.Step.{Step};
ghost use Rattle.fc_path.specs.declared.oper.Step.TheVariants as step;
ghost use Rattle.fc_tree.specs.Putting.{put_in};
ghost use Rattle.fc_tree.specs.Removing.{remove_in};
ghost use Rattle.fc_types.specs.declared.ty.KeyDecl.{KeyDecl as Keyed};
ghost use Rattle.fc_types.specs.declared.ty.Ty.{Ty as Typed};
ghost use Rattle.fc_types.specs.declared.ty.Ty.TheOpen.{Ty-F};
ghost use Rattle.fc_types.specs.declared.ty.Ty.TheViews.{out-Ty};
ghost use Rattle.fc_value.specs.declared.value.Value.TheVariants as value;
ghost use Rattle.fc_instance.specs.Components.{as_value, put_rows, remove_row};

/// A SET of FULLDATA at an entry of an array that is a component, or below it, puts that entry among the others and leaves them; a DEL
/// takes it out. What the path within the entry and the bytes give stands first, then that there is no room, then that a key is there.
pub fn array_changes_by_its_entries()
    ensures put { (ty entry : Typed) (limit : ℕ) (keys : List Keyed) → out-Ty ty ≡ Ty-F.Array entry limit keys → (m : RowMap) (s : ℕ) (ss : List Step) (bytes : List ℕ) → put_in (step.Id s ∷ ss) bytes ty (value.Table (map.entries m)) ≡ as_value (put_rows ss bytes entry limit keys m s) }
    ensures removed { (ty entry : Typed) (limit : ℕ) (keys : List Keyed) → out-Ty ty ≡ Ty-F.Array entry limit keys → (m : RowMap) (s : ℕ) → remove_in (step.Id s ∷ []) ty (value.Table (map.entries m)) ≡ as_value (remove_row m s (map.get m s)) }
{}
