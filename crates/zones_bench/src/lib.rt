// Reductions of a fixed zone, many times over, for a benchmark (bench/README.md).
#![tactic(auto)]

ghost use Rattle.std.specs.Prelude.{◌≡◌, ◌<◌, ◌≤◌, ◌*◌};
ghost use Rattle.std.proofs.Props.{props};
ghost use Rattle.zones_bench.specs.Bench.{bench_pair, bench_square, bench_work, probe_of, bench_once, bench_total, bench_of, prime};

use std::array;
use zones::fraction::Fraction;
use zones::pair::Pair;
use zones::reduction::Unreduced;
use zones::zone::Work;

// The checksum's modulus.
const PRIME: u64 = 1000003;

// A checksum over `times` reductions of a zone of `size` indices; 0 where there is no such zone.
#[unsafe(no_mangle)]
#[tactic(auto, unfolding(crate::specs::Bench::bench_of))]
pub extern "C" fn zones_bench_reduce(size: usize, times: u64) -> u64
    ensures { result ≡ bench_of size times }
{
    if size == 0 || 9 < size {
        return 0;
    }
    let bench = Bench {
        square: square(),
        size,
    };
    bench.total(times)
}

// The square that every reduction begins with, but for the entry that is varied, and how many of its indices are reduced: document 01's fixed
// array, and the size that C gives.
#[derive(Clone, Copy)]
struct Bench {
    square: [Pair; 81],
    size: usize,
    ghost filled: { square ≡ bench_square } by { Prim.hlevel props },
    ghost some: { (0 < size) × (size ≤ 9) },
}

impl Bench {
    // Each time a copy of the square is varied and reduced.
    #[tactic(auto, unfolding(crate::specs::Bench::bench_total))]
    fn total(&self, times: u64) -> u64
        ensures { result ≡ bench_total self.now.size times }
    {
        let mut sum: u64 = 0;
        for t in 0..times {
            sum = (sum + self.once(t)) % PRIME;
        }
        sum
    }

    // The probe after one reduction.
    #[tactic(auto, using(crate::proofs::Filling::work_ready), unfolding(crate::specs::Bench::bench_once))]
    fn once(&self, t: u64) -> u64
        ensures { (result ≡ bench_once self.now.size t) × (result < 2 * prime) }
    {
        let unreduced = Unreduced {
            work: self.varied(t),
            size: self.size,
        };
        self.probe(unreduced.reduce().work)
    }

    // The zone to be reduced: entry (1, 0) goes with t.
    #[tactic(auto, unfolding(crate::specs::Bench::bench_work))]
    fn varied(&self, t: u64) -> Work
        ensures { result ≡ bench_work t }
    {
        let mut zone = self.square;
        zone[9] = Pair {
            // i64 has no From of u64.
            m: (t % 64) as i64,
            p: t % 16,
        };
        Work {
            zone,
            fraction: Fraction::NO_LIMIT,
        }
    }

    // What the checksum takes of a reduction: the error count of entry (0, size − 1), and the fraction's n.
    #[tactic(auto, using(crate::proofs::Filling::first_row), unfolding(crate::specs::Bench::probe_of))]
    fn probe(&self, w: Work) -> u64
        ensures { (result ≡ probe_of self.now.size w) × (result < 2 * prime) }
    {
        w.zone[self.size - 1].p % PRIME + w.fraction.n % PRIME
    }
}

// The square, entry by entry.
fn square() -> [Pair; 81]
    ensures { result ≡ bench_square }
{
    array::from_fn(pair_of)
}

// The entry at a place.
#[tactic(auto, unfolding(crate::specs::Bench::bench_pair))]
fn pair_of(at: usize) -> Pair
    requires { at < 81 }
    ensures { result ≡ bench_pair at }
{
    let i = at / 9;
    let j = at % 9;
    if i == j {
        return Pair::ZERO;
    }
    // Neither i64 nor u64 has a From of usize.
    Pair {
        m: ((17 * i + 13 * j) % 31 + 1) as i64,
        p: ((13 * i + 3 * j) % 29) as u64,
    }
}
