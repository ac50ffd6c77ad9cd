ghost use Rattle.std.specs.Prelude.{◌≡◌, ◌<◌, ◌*◌, ℕ, Bool, List, length, true, false};
ghost use Rattle.no_layout.specs.Memory.{Agrees, access, also, page_of, read_bytes, written};
ghost use Rattle.no_layout.specs.declared.memory.Access.TheVariants.{Done};
ghost use Rattle.no_layout.specs.declared.memory.Regions.{Regions};

/// The laws that let a memory of some pages stand for each whole memory that agrees with it: a page that is supplied
/// changes no byte that was known, and leaves both in agreement where it has the whole memory's bytes; a read that is
/// done gives the same in both; and the same bytes written in both leave them in agreement.
pub fn held_pages_stand_for_the_whole()
    ensures keeps { (held : ℕ → Bool) (byte : ℕ → ℕ) (p : ℕ) (bytes : List ℕ) → held p ≡ false → length bytes ≡ 4096 → (a : ℕ) → held (page_of a) ≡ true → written byte (4096 * p) bytes a ≡ byte a }
    ensures supplies { (held : ℕ → Bool) (byte whole : ℕ → ℕ) (p : ℕ) → Agrees held byte whole → Agrees (also held p) (written byte (4096 * p) (read_bytes whole (4096 * p) 4096)) whole }
    ensures reads { (r : Regions) (held : ℕ → Bool) (write : Bool) (byte whole : ℕ → ℕ) (at n : ℕ) → 0 < n → access r held write at n ≡ Done → Agrees held byte whole → read_bytes byte at n ≡ read_bytes whole at n }
    ensures writes { (held : ℕ → Bool) (byte whole : ℕ → ℕ) (at : ℕ) (bytes : List ℕ) → Agrees held byte whole → Agrees held (written byte at bytes) (written whole at bytes) }
{}
