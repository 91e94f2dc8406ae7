// The numbers of open branches.
ghost use Rattle.std.specs.Prelude.{◌≡◌, ◌+◌, ◌<◌, ◌≤◌, true, false};

// The number of the branch that opens next.
pub fn number_after(opened: usize) -> u64
    requires { opened < 8 }
    ensures { result ≡ opened + 1 }
{
    opened as u64 + 1
}

// Whether the number is that of the latest open branch. No branch has number 0.
pub fn is_latest(number: u64, opened: usize) -> bool
    ensures yes { result ≡ true → (1 ≤ number) × (number ≡ opened) }
    ensures no { result ≡ false → number ≡ opened → number ≡ 0 }
{
    number >= 1 && number == opened as u64
}
