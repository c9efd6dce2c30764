//! The sines of whole degrees on the first quarter of the circle, with corrections between them.

ghost use Rattle.std.specs.Prelude.{◌≡◌, ◌+◌, ◌<◌, ◌≤◌, pos, neg_ℤ, slice_index};
ghost use Rattle.fixed_sine.specs.Table.{sines, correction};

/// The row of the table of sines for one degree: the sine at its start, its rise to the next
/// degree, and the size of the correction of the interpolation over it, all in billionths.
#[derive(Clone, Copy)]
pub struct SineRow {
    /// The sine at the start of the degree, in billionths.
    pub sine: u32,
    /// The sine at the end of the degree minus the sine at its start, in billionths.
    pub rise: u32,
    /// The absolute value of the correction of the interpolation over the degree, in billionths; the
    /// correction itself is negative or 0.
    pub correction: u32,
}

/// The sines of the degrees from 0 to 90, in billionths.
static SINES: [u32; 91] = [
    0, 17452406, 34899497, 52335956, 69756474, 87155743, 104528463, 121869343, 139173101,
    156434465, 173648178, 190808995, 207911691, 224951054, 241921896, 258819045, 275637356,
    292371705, 309016994, 325568154, 342020143, 358367950, 374606593, 390731128, 406736643,
    422618262, 438371147, 453990500, 469471563, 484809620, 500000000, 515038075, 529919264,
    544639035, 559192903, 573576436, 587785252, 601815023, 615661475, 629320391, 642787610,
    656059029, 669130606, 681998360, 694658370, 707106781, 719339800, 731353702, 743144825,
    754709580, 766044443, 777145961, 788010754, 798635510, 809016994, 819152044, 829037573,
    838670568, 848048096, 857167301, 866025404, 874619707, 882947593, 891006524, 898794046,
    906307787, 913545458, 920504853, 927183855, 933580426, 939692621, 945518576, 951056516,
    956304756, 961261696, 965925826, 970295726, 974370065, 978147601, 981627183, 984807753,
    987688341, 990268069, 992546152, 994521895, 996194698, 997564050, 998629535, 999390827,
    999847695, 1000000000,
];

/// The sizes of the corrections over the degrees from 0 to 89, in billionths.
static CORRECTIONS: [u32; 90] = [
    5315, 15947, 26573, 37190, 47798, 58389, 68962, 79516, 90045, 100547, 111017, 121454, 131854,
    142214, 152531, 162800, 173022, 183189, 193300, 203353, 213346, 223272, 233128, 242916, 252630,
    262266, 271822, 281296, 290683, 299982, 309191, 318304, 327321, 336238, 345052, 353762, 362364,
    370855, 379233, 387497, 395642, 403665, 411567, 419343, 426991, 434509, 441896, 449147, 456260,
    463237, 470070, 476762, 483309, 489706, 495955, 502055, 508001, 513790, 519425, 524902, 530217,
    535372, 540364, 545190, 549851, 554346, 558669, 562824, 566807, 570616, 574255, 577715, 581000,
    584110, 587040, 589791, 592364, 594757, 596966, 598994, 600842, 602505, 603985, 605280, 606391,
    607318, 608060, 608617, 608987, 609173,
];

/// Returns the sine of `degrees` whole degrees, from 0 to 90, in billionths.
#[tactic(auto, unfolding(crate::specs::Table::sines))]
fn whole_sine(degrees: usize) -> u32
    requires { degrees ≤ 90 }
    ensures { result ≡ slice_index sines degrees }
{
    SINES[degrees]
}

/// Returns the row of the table of sines for the degree that begins at `degrees` whole degrees,
/// from 0 to 89: the sine there, its rise to the next degree, and the absolute value of the
/// correction of the interpolation, which is negative or 0. All are in billionths.
pub fn row_of(degrees: usize) -> SineRow
    requires { degrees < 90 }
    ensures sine { result.sine ≡ slice_index sines degrees }
    ensures rise { result.sine + result.rise ≡ slice_index sines (degrees + 1) }
    ensures correction { correction degrees ≡ neg_ℤ (pos result.correction) }
{
    let sine = whole_sine(degrees);
    SineRow {
        sine,
        rise: whole_sine(degrees + 1) - sine,
        correction: CORRECTIONS[degrees],
    }
}
