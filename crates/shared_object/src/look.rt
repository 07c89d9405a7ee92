/// What is read off a root, or off the object itself.
pub trait Look<R> {
    /// What is found.
    type Found;

    // What a look at it finds.
    ghost finds: { Self → R → Self.Found → Type 0 };

    /// Looks at it, while it stays as it is. For a look at a root nobody waits: the client has left by then, but where as many own the root as
    /// can be counted.
    fn look(&self, root: &R) -> Self::Found
        ensures { finds self.now root.now result };
}
