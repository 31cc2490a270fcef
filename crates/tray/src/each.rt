// Each element of a run to what it becomes.
ghost use Rattle.std.specs.Prelude.{◌≡◌, ◌≤◌, map, length};
ghost use Rattle.std.proofs.lemmas.List.Edits.{sets};
ghost use Rattle.tray.specs.scaffold.Parts.{Gives};

// Stores what each element becomes, in their order.
// Kept: a loop by number, since nothing is known of what is stored through `iter_mut` under `zip`.
pub(crate) fn store_each<A: Copy, B: Copy, F: Fn(A) -> B>(from: &[A], out: &mut [B], becomes: F)
    requires always { F.IsAlwaysCallable becomes }
    requires room { length from.now ≤ length out.old }
    ensures { (g : A → B) → Gives (F.post becomes) g from.now → out.new ≡ sets out.old 0 (map g from.now) }
{
    for i in 0..from.len() {
        out[i] = becomes(from[i]);
    }
}
