// Division by g of polynomials over two elements, the long division of Lin and Costello. A polynomial is held as a number: bit i is the
// coefficient of x^i. To add two and to take one away from another are the same, the exclusive-or.
#![tactic(auto)]

ghost use Rattle.std.specs.Prelude.{◌≡◌};
ghost use Rattle.poly.specs.Poly.{word_bits, rem};

// g(x) = x^12 + x^10 + x^8 + x^5 + x^4 + x^3 + 1
// power of x:  12 11 10 9 8 7 6 5 4 3 2 1 0
const G: u64 = 0b1__0__1_0_1_0_0_1_1_1_0_0_1;

// n: a word has n coefficients, those of x^(n-1) to x^0.
const N: u64 = 63;

// k: the degree of g is n - k, so the division of a word has k steps.
const K: u64 = 51;

// The remainder b(x) of what is divided, a(x) g(x) + b(x), by long division: of the n low coefficients of v.
pub fn remainder(v: u64) -> u64
    ensures { result ≡ rem word_bits v }
{
    let mut b = v % (1 << N);
    // The leading power, x^(n-1), and g with its leading term there: g(x) x^(k-1). The last step is at g itself.
    let mut lead = 1 << (N - 1);
    let mut g = G << (K - 1);
    // There is no index to count: g says itself when it is past its own place.
    while G <= g {
        // If the leading coefficient is one, b reaches up to that power: take g away there.
        if lead <= b {
            b ^= g;
        }
        // Move on.
        lead >>= 1;
        g >>= 1;
    }
    b
}
