ghost use Rattle.std.specs.Prelude.{◌≡◌, ℕ};

/// An entry of a history tells which session made it, and by which of its commands.
pub trait Made {
    ghost session_of: { Self → ℕ };

    ghost command_of: { Self → ℕ };

    fn session(&self) -> u32
        ensures { result ≡ session_of self.now };

    fn command(&self) -> u32
        ensures { result ≡ command_of self.now };
}
