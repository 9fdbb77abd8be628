// The running fraction, lowered by every comparison, and lowest terms.
ghost use Rattle.std.specs.Prelude.{◌≡◌};
ghost use Rattle.zones.specs.Fractions.{lowered_by, gcd_of, lowest_terms};
ghost use Rattle.zones.specs.Ranges.{Fits32};

// n/d: the error e/s must stay below it.
// What multiplies asks Fits32: the threshold of two Small pairs need not fit, and lowest terms are of any two numbers, so the type does not carry it.
#[derive(Clone, Copy)]
pub struct Fraction {
    pub n: u64,
    pub d: u64,
}

impl Fraction {
    // Document 01: "It starts at 1/0, no limit". It is above every other, so nothing that lowers a fraction asks whether there is one.
    pub const NO_LIMIT: Fraction = Fraction { n: 1, d: 0 };

    // The lower of the two; on equality the one that is there.
    #[tactic(auto, unfolding(crate::specs::Fractions::lowered_by))]
    pub fn lowered(self, o: Fraction) -> Fraction
        requires { Fits32 self × Fits32 o }
        ensures { result ≡ lowered_by self o }
    {
        if o.d == 0 {
            return self;
        }
        if o.n * self.d < self.n * o.d { o } else { self }
    }

    // The same fraction in lowest terms; 1/0 stays 1/0.
    #[tactic(auto, using(crate::proofs::fractions::Lowest::lowest_of_small), unfolding(crate::specs::Fractions::lowest_terms))]
    pub fn lowest_terms(self) -> Fraction
        ensures { result ≡ lowest_terms self }
    {
        let g = gcd(self.n, self.d);
        // 0/0 has nothing to divide by; by 1 there is no need to.
        if g <= 1 {
            return self;
        }
        Fraction {
            n: self.n / g,
            d: self.d / g,
        }
    }
}

// The fraction is lowered where it stands. `lowered` is the core by value, this the one thin function that it is lent to: document 01's form.
pub(crate) fn lower(f: &mut Fraction, o: Fraction)
    requires { Fits32 f.old × Fits32 o }
    ensures { f.new ≡ lowered_by f.old o }
{
    *f = f.lowered(o);
}

// The greatest common divisor, by Euclid's algorithm; that of x and 0 is x.
#[tactic(auto, using(crate::proofs::fractions::Lowest::gcd_step))]
pub fn gcd(x: u64, y: u64) -> u64
    ensures { result ≡ gcd_of x y }
{
    let mut a = x;
    let mut b = y;
    // It ends at a remainder of 0, and not at a count.
    while b != 0 {
        let r = a % b;
        a = b;
        b = r;
    }
    a
}
