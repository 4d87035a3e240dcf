// Runs of bytes from slice to slice, many at a time: what is read whole before it is stored costs no test whether two slices meet.
ghost use Rattle.std.specs.Prelude.{true, ◌≡◌, ◌+◌, ◌%◌, ◌<◌, ◌≤◌, length, take, drop};
ghost use Rattle.std.proofs.lemmas.List.Edits.{sets};
ghost use Rattle.lists.specs.Places.{gathered};

// The N bytes from `at` on: a run that is read whole before it is stored, so nothing hinges on whether two slices meet.
pub fn run_at<const N: usize>(b: &[u8], at: usize) -> [u8; N]
    requires { at + N ≤ length b.now }
    ensures { result ≡ take N (drop at b.now) }
{
    let mut r = [0u8; N];
    r.copy_from_slice(&b[at..at + N]);
    r
}

pub fn put_run<const N: usize>(b: &mut [u8], at: usize, r: [u8; N])
    requires { at + N ≤ length b.old }
    ensures { b.new ≡ sets b.old at r.entry }
{
    b[at..at + N].copy_from_slice(&r);
}

// The two bytes of each word change their places.
pub fn swapped<const N: usize>(r: [u8; N]) -> [u8; N]
    requires { N % 2 ≡ 0 }
    ensures { result ≡ gathered true r.entry 0 N }
{
    let mut s = r;
    for j in 0..N / 2 {
        s.swap(2 * j, 2 * j + 1);
    }
    s
}

// N bytes at a time. The last run ends where the bytes end, over some that are there already.
fn copy_runs<const N: usize>(d: &[u8], from: usize, b: &mut [u8], at: usize, n: usize)
    requires { (0 < N) × (N ≤ n) × (from + n ≤ length d.now) × (at + n ≤ length b.old) }
    ensures { b.new ≡ sets b.old at (take n (drop from d.now)) }
{
    let last = n - N;
    for k in 0..n / N {
        let i = N * k;
        put_run(b, at + i, run_at::<N>(d, from + i));
    }
    put_run(b, at + last, run_at::<N>(d, from + last));
}

// n bytes of d, from `from` on, go to b at `at`.
// Kept: two places and a count, not two slices, which each caller would cut with a test of its own.
pub fn copy(d: &[u8], from: usize, b: &mut [u8], at: usize, n: usize)
    requires { (from + n ≤ length d.now) × (at + n ≤ length b.old) }
    ensures { b.new ≡ sets b.old at (take n (drop from d.now)) }
{
    if 64 <= n {
        copy_runs::<64>(d, from, b, at, n);
        return;
    }
    if 8 <= n {
        copy_runs::<8>(d, from, b, at, n);
        return;
    }
    // Kept: a copy_from_slice of any length becomes a call of memmove, and the archive asks its host for no symbol but memset.
    for i in 0..n {
        b[at + i] = d[from + i];
    }
}
