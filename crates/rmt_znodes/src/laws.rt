//! What holds of the znodes of a table. Each law is a function that does nothing, and whose clauses are the law.
ghost use Rattle.std.specs.Prelude.{◌≡◌, ◌<◌, ◌∷◌, [], ℕ, suc, true, false, List};
ghost use Rattle.std.specs.declared.option.Option.{Option};
ghost use Rattle.std.specs.declared.option.Option.TheVariants.{Some, None};
ghost use Rattle.rmt_paths.specs.Paths.{Names, parent, numbered};
ghost use Rattle.rmt_tree.specs.Trees.{TreeView, is_open, ended};
ghost use Rattle.rmt_tree.specs.Ops.{last_version, last_counter};
ghost use Rattle.rmt_tree.specs.declared.op.Op.TheVariants as op;
ghost use Rattle.rmt_znodes.specs.declared.znode.Znode.{Znode};
ghost use Rattle.rmt_znodes.specs.Znodes.{znode_path, IsZnode};
ghost use Rattle.rmt_znodes.specs.ZnodeStates.{ZnodeState, ZnodeStates, Limits, HasZnodes, Makes, above, is_leaf, with_state, without_state, without_held, raised};

/// A path is of one znode: two znodes that have one path are one.
pub fn one_path()
    ensures { (x y : Znode) → IsZnode x → IsZnode y → znode_path x ≡ znode_path y → x ≡ y }
{}

/// What an operation makes of the znodes where they allow it, and what the end of a session makes of them.
pub fn an_operation_changes_its_znode()
    ensures creates { (t : TreeView) (states : ZnodeStates) (limits : Limits) (x y : Znode) (f : ZnodeState) (value : List ℕ) (owner : Option ℕ) → HasZnodes t states limits → IsZnode x → above x ≡ Some y → states y ≡ Some f → f.owner ≡ None → states x ≡ None → ((s : ℕ) → owner ≡ Some s → is_open t s ≡ true)
        → Makes t (op.Create (znode_path x) value false owner ∷ []) (with_state x (record { value = value; counter = 0; owner = owner }) states) limits }
    ensures numbers { (t : TreeView) (states : ZnodeStates) (limits : Limits) (p : Names) (x y : Znode) (f : ZnodeState) (value : List ℕ) (owner : Option ℕ) → HasZnodes t states limits → IsZnode x → IsZnode y → parent p ≡ znode_path y → numbered p f.counter ≡ znode_path x → states y ≡ Some f → f.owner ≡ None → f.counter < last_counter → states x ≡ None → ((s : ℕ) → owner ≡ Some s → is_open t s ≡ true)
        → Makes t (op.Create p value true owner ∷ []) (with_state x (record { value = value; counter = 0; owner = owner }) (with_state y (record f { counter = suc f.counter }) states)) limits }
    ensures sets { (t : TreeView) (states : ZnodeStates) (limits : Limits) (x : Znode) (f : ZnodeState) (value : List ℕ) → HasZnodes t states limits → IsZnode x → states x ≡ Some f → limits x < last_version
        → Makes t (op.Set (znode_path x) value None ∷ []) (with_state x (record f { value = value }) states) (raised x limits) }
    ensures deletes { (t : TreeView) (states : ZnodeStates) (limits : Limits) (x : Znode) (f : ZnodeState) → HasZnodes t states limits → IsZnode x → is_leaf x ≡ true → states x ≡ Some f
        → Makes t (op.Delete (znode_path x) None ∷ []) (without_state x states) limits }
    ensures ends { (t : TreeView) (states : ZnodeStates) (limits : Limits) (s : ℕ) → HasZnodes t states limits → HasZnodes (ended t s) (without_held s states) limits }
{}
