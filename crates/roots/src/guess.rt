// A guess at a root, by floats. Nothing is proved of it, and nothing but the time depends on it.
// The product of the four factors is a polynomial in y of degree 8. From y = 1 to 2 it is 1024 √(2y) with a relative
// error below 4.7e-9. It was found by Remez's exchange: the polynomial with leading coefficient -1 whose largest
// relative error is least, its factors then rounded to ten digits.
// From a number s near √x Heron's step makes s / 2 + x / (2s), whose relative error is half the square of that of s.
// Here x is 2y at parity 0 and y at parity 1, s / 2 is the product times the first of FACTORS, and x / (2s) is y
// times the second over the product. At parity 0 the factors are 2^-11 and 2^10. At parity 1 they are these over √2,
// rounded so that the first times the second is 1/4 with a relative error below 2^-55.
// On 60 million significands the root less the guess was from -1.28 to 1.33 units of 2^-52. The certificate needs less
// than 1.5.

// At each parity, what makes half the root of the product, and a half at parity 0, a quarter at parity 1, over that.
// A const is copied to the stack at each call: a root takes 1.02 of its time by one.
static FACTORS: [(f64, f64); 2] = [
    (0.00048828125, 1024.0),
    (0.00034526698300125564, 724.077343935),
];

// A guess at the root of y * 2^(1 - parity), for y from 1 to 2.
pub(crate) fn root_guess(y: f64, parity: u64) -> f64 {
    let first = ((y + 0.4985350928) * y + 3.007010281) * ((y - 7.149968202) * y + 16.74775228);
    let second = ((y - 3.087794091) * y + 9.692062384) * ((4.291120033 - y) * y + 0.6972467514);
    let product = first * second;
    let (product_factor, quotient_factor) = FACTORS[(parity % 2) as usize];
    product * product_factor + y * quotient_factor / product
}
