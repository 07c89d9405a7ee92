ghost use Rattle.std.specs.Prelude.{◌≡◌, IfOk, OnOk, OnErr, IsOkUnless};
ghost use Rattle.dots.specs.declared.refusal.Refusal.TheVariants.{OutOfMemory};

use dots::Refusal;

/// A change of a value. Where nothing else has the value it is changed as it stands, and else a new one is made of it.
pub trait Change<V> {
    // The values that can be changed.
    ghost fits: { Self → V → Type 0 };

    // What a value can become.
    ghost becomes: { Self → V → V → Type 0 };

    /// What the value becomes, as a new value.
    /// Its only refusal is OutOfMemory.
    fn made(&self, value: &V) -> Result<V, Refusal>
        requires { fits self.now value.now }
        ensures ok { IfOk result (becomes self.now value.now) }
        ensures err { IsOkUnless result OutOfMemory };

    /// Changes the value as it stands. A refused call leaves it as it was.
    /// Its only refusal is OutOfMemory.
    fn apply(&self, value: &mut V) -> Result<(), Refusal>
        requires { fits self.now value.old }
        ensures ok { OnOk result (becomes self.now value.old value.new) }
        ensures unchanged { OnErr result (value.new ≡ value.old) }
        ensures err { IsOkUnless result OutOfMemory };
}
