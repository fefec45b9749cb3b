// One block of FIPS 180-4, 6.2.2 and 6.4.2, which differ in the words, their functions and the number of rounds: the schedule, the
// rounds and the next hash value, for any of them.
ghost use Rattle.std.specs.Prelude.{◌≡◌, ℕ, ◌+◌, ◌%◌, ◌<◌, ◌≤◌, List, length, slice_index_or};
ghost use Rattle.sha2_common.specs.Equations as fips;
ghost use Rattle.sha2_common.specs.Rounds.{Onward};

// The functions of a hash on its words (3.2 and 4.1).
pub trait Functions {
    type Word: Copy;

    ghost functions: { fips.Functions Self.Word };

    // The sum modulo 2 ^ 32 or 2 ^ 64.
    fn add(x: Self::Word, y: Self::Word) -> Self::Word
        ensures { result ≡ functions.sum x y };

    fn ch(x: Self::Word, y: Self::Word, z: Self::Word) -> Self::Word
        ensures { result ≡ functions.ch x y z };

    fn maj(x: Self::Word, y: Self::Word, z: Self::Word) -> Self::Word
        ensures { result ≡ functions.maj x y z };

    fn big_sigma0(x: Self::Word) -> Self::Word
        ensures { result ≡ functions.big_sigma0 x };

    fn big_sigma1(x: Self::Word) -> Self::Word
        ensures { result ≡ functions.big_sigma1 x };

    fn small_sigma0(x: Self::Word) -> Self::Word
        ensures { result ≡ functions.small_sigma0 x };

    fn small_sigma1(x: Self::Word) -> Self::Word
        ensures { result ≡ functions.small_sigma1 x };

    // The word of the block m at t.
    fn block_word(m: &[u32], t: usize) -> Self::Word
        requires { (length m.now ≡ functions.size) × (t < 16) }
        ensures { result ≡ slice_index_or (functions.words m.now) t functions.none };
}

// The eight working variables.
#[derive(Clone, Copy)]
pub struct Working<W> {
    pub a: W,
    pub b: W,
    pub c: W,
    pub d: W,
    pub e: W,
    pub f: W,
    pub g: W,
    pub h: W,
}

fn initialize<F: Functions>(h: [F::Word; 8]) -> Working<F::Word>
    ensures { result ≡ fips.initialize F.functions h }
{
    Working {
        a: h[0],
        b: h[1],
        c: h[2],
        d: h[3],
        e: h[4],
        f: h[5],
        g: h[6],
        h: h[7],
    }
}

fn t1<F: Functions>(v: Working<F::Word>, k: F::Word, w: F::Word) -> F::Word
    ensures { result ≡ fips.t1 F.functions v k w }
{
    F::add(
        F::add(
            F::add(F::add(v.h, F::big_sigma1(v.e)), F::ch(v.e, v.f, v.g)),
            k,
        ),
        w,
    )
}

fn t2<F: Functions>(v: Working<F::Word>) -> F::Word
    ensures { result ≡ fips.t2 F.functions v }
{
    F::add(F::big_sigma0(v.a), F::maj(v.a, v.b, v.c))
}

// One round, at its constant k and its word w of the schedule.
fn round<F: Functions>(v: Working<F::Word>, k: F::Word, w: F::Word) -> Working<F::Word>
    ensures { result ≡ fips.round F.functions v k w }
{
    let first = t1::<F>(v, k, w);
    Working {
        a: F::add(first, t2::<F>(v)),
        b: v.a,
        c: v.b,
        d: v.c,
        e: F::add(v.d, first),
        f: v.e,
        g: v.f,
        h: v.g,
    }
}

// The hash value after the block whose rounds end in v.
fn intermediate<F: Functions>(h: [F::Word; 8], v: Working<F::Word>) -> [F::Word; 8]
    ensures { result ≡ fips.intermediate F.functions h v }
{
    let before = initialize::<F>(h);
    [
        F::add(v.a, before.a),
        F::add(v.b, before.b),
        F::add(v.c, before.c),
        F::add(v.d, before.d),
        F::add(v.e, before.e),
        F::add(v.f, before.f),
        F::add(v.g, before.g),
        F::add(v.h, before.h),
    ]
}

// One of the first 16 rounds: W at t is the word of the block m at t (1).
fn first_step<F: Functions, const N: usize>(
    v: Working<F::Word>,
    k: &[F::Word; N],
    m: &[u32],
    w: &mut [F::Word; N],
    t: usize,
) -> Working<F::Word>
    requires { (k.now ≡ F.functions.constants) × (length m.now ≡ F.functions.size) × (t < 16) × (16 ≤ N) }
    ensures { Onward F.functions N (F.functions.words m.now) t (t + 1) w.old v w.new result }
{
    let x = F::block_word(m, t);
    w[t] = x;
    round::<F>(v, k[t], x)
}

// Four of them in a row: after each the working variables change places, and after four no register has to be copied
// for that.
fn first_four<F: Functions, const N: usize>(
    v: Working<F::Word>,
    k: &[F::Word; N],
    m: &[u32],
    w: &mut [F::Word; N],
    t: usize,
) -> Working<F::Word>
    requires { (k.now ≡ F.functions.constants) × (length m.now ≡ F.functions.size) × (t + 4 ≤ 16) × (16 ≤ N) }
    ensures { Onward F.functions N (F.functions.words m.now) t (t + 4) w.old v w.new result }
{
    let a = first_step::<F, N>(v, k, m, w, t);
    let b = first_step::<F, N>(a, k, m, w, t + 1);
    let c = first_step::<F, N>(b, k, m, w, t + 2);
    first_step::<F, N>(c, k, m, w, t + 3)
}

// The first 16 rounds.
fn first_rounds<F: Functions, const N: usize>(
    start: Working<F::Word>,
    k: &[F::Word; N],
    m: &[u32],
    w: &mut [F::Word; N],
) -> Working<F::Word>
    requires { (k.now ≡ F.functions.constants) × (length m.now ≡ F.functions.size) × (16 ≤ N) }
    ensures { Onward F.functions N (F.functions.words m.now) 0 16 w.old start w.new result }
{
    let mut v = start;
    for t in (0..16).step_by(4) {
        v = first_four::<F, N>(v, k, m, w, t);
    }
    v
}

// W at t, past the first 16, of the words before it, which w begins with (1).
fn message_word<F: Functions, const N: usize>(w: &[F::Word; N], t: usize) -> F::Word
    requires { (16 ≤ t) × (t < N) }
    ensures { (M : List F.Word) → result ≡ fips.message_word F.functions M w.now t }
{
    F::add(
        F::add(
            F::add(F::small_sigma1(w[t - 2]), w[t - 7]),
            F::small_sigma0(w[t - 15]),
        ),
        w[t - 16],
    )
}

// One of the other rounds. Its word of the schedule is made in the round that uses it, so that the two run side by side
// in the processor.
fn step<F: Functions, const N: usize>(
    v: Working<F::Word>,
    k: &[F::Word; N],
    w: &mut [F::Word; N],
    t: usize,
) -> Working<F::Word>
    requires { (k.now ≡ F.functions.constants) × (16 ≤ t) × (t < N) }
    ensures { (M : List F.Word) → Onward F.functions N M t (t + 1) w.old v w.new result }
{
    let x = message_word::<F, N>(w, t);
    w[t] = x;
    round::<F>(v, k[t], x)
}

// Four of them.
fn four_steps<F: Functions, const N: usize>(
    v: Working<F::Word>,
    k: &[F::Word; N],
    w: &mut [F::Word; N],
    t: usize,
) -> Working<F::Word>
    requires { (k.now ≡ F.functions.constants) × (16 ≤ t) × (t + 4 ≤ N) }
    ensures { (M : List F.Word) → Onward F.functions N M t (t + 4) w.old v w.new result }
{
    let a = step::<F, N>(v, k, w, t);
    let b = step::<F, N>(a, k, w, t + 1);
    let c = step::<F, N>(b, k, w, t + 2);
    step::<F, N>(c, k, w, t + 3)
}

// The other rounds.
fn later_rounds<F: Functions, const N: usize>(
    start: Working<F::Word>,
    k: &[F::Word; N],
    w: &mut [F::Word; N],
) -> Working<F::Word>
    requires { (k.now ≡ F.functions.constants) × (16 ≤ N) × (N % 4 ≡ 0) }
    ensures { (M : List F.Word) → Onward F.functions N M 16 N w.old start w.new result }
{
    let mut v = start;
    for t in (16..N).step_by(4) {
        v = four_steps::<F, N>(v, k, w, t);
    }
    v
}

// The hash value h after the block m, by N rounds. The constants k and room w for the schedule are the caller's: who has many
// blocks makes them once.
pub fn compress<F: Functions, const N: usize>(
    h: [F::Word; 8],
    m: &[u32],
    k: &[F::Word; N],
    w: &mut [F::Word; N],
) -> [F::Word; 8]
    requires { (k.now ≡ F.functions.constants) × (length m.now ≡ F.functions.size) × (length w.old ≡ N) × (16 ≤ N) × (N % 4 ≡ 0) }
    ensures value { result ≡ fips.compress F.functions N h (F.functions.words m.now) }
    ensures room { w.new ≡ fips.schedule F.functions (F.functions.words m.now) N }
{
    let start = initialize::<F>(h);
    let after = first_rounds::<F, N>(start, k, m, w);
    let v = later_rounds::<F, N>(after, k, w);
    intermediate::<F>(h, v)
}
