//! A log to keep behind a gate.
use host_gate::Kept;
use std::marker::Model;

#[derive(Clone, Copy)]
pub struct Entry {
    pub by: u64,
    pub number: u64,
}

#[derive(Drop)]
pub struct Log {
    pub entries: Vec<Entry>,
}

impl Model for Log {
    ghost use Rattle.std.specs.Prelude.{List};
    ghost use Rattle.host_gate_tests.specs.declared.tests.log.Entry.{Entry};

    ghost Value = { List Entry };

    ghost view = { λ l. l.entries.items };
}

// Adds the entry behind the others, and answers its place; None without memory.
impl Kept for Log {
    ghost use Rattle.std.specs.Prelude.{◌≡◌, List, [], ◌∷◌, ◌++◌, length, Some, None, true, false};
    ghost use Rattle.std.proofs.Common.{sym, ap, ◌∙◌, append-nil, append_assoc};
    ghost use Rattle.host_gate_tests.specs.declared.tests.log.Entry.{Entry};

    type Call = Entry;

    type Reply = Option<usize>;

    ghost may = { λ _ _. Unit {0} };

    ghost grown = { λ x y. (rest : List Entry) × (y ≡ x ++ rest) };

    ghost steps = { λ x call reply changed y. (reply ≡ None → y ≡ x) × (changed ≡ true → (reply ≡ Some (length x)) × (y ≡ x ++ call ∷ [])) };

    fn apply(&mut self, call: Entry) -> (Option<usize>, bool) {
        let place = self.entries.len();
        match self.entries.push(call) {
            Ok(()) => (Some(place), true),
            Err(_) => (None, false),
        }
    }

    ghost grown_refl = { λ x. ([], sym (append-nil x)) };

    ghost grown_trans = { λ x y z p q. (p.0 ++ q.0, q.1 ∙ ap (λ l. l ++ q.0) p.1 ∙ append_assoc x p.0 q.0) };

    ghost may_grown = { λ _ _ _ _ m. m };
}
