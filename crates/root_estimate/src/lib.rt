// The reciprocal of a root to some 28 digits, by one of 64 curves of third degree.

#![tactic(auto)]

ghost use Rattle.std.specs.Prelude.{◌^◌, ◌<◌};
ghost use Rattle.root_estimate.specs.Curves.{Curved};

// Of a curve a - b * d + c * d² - e * d³ the numbers a, b, c and e. With d from 0 to 1 across an interval it is near to 2 ^ 32 / √y for the y of the
// interval.
#[derive(Clone, Copy)]
struct Curve(u64, u64, u64, u64);

// From 0 to 31 the curves of the intervals of y from 2 to 4, from 32 to 63 those from 1 to 2.
static CURVES: [Curve; 64] = [
    Curve(3037000485, 47452945, 1111241, 27438),
    Curve(2990631344, 45312433, 1029011, 24677),
    Curve(2946323247, 43328140, 955052, 22263),
    Curve(2903927897, 41484559, 888326, 20144),
    Curve(2863311522, 39768105, 827947, 18277),
    Curve(2824353086, 38166835, 773161, 16627),
    Curve(2786942786, 36670213, 723318, 15164),
    Curve(2750980727, 35268906, 677860, 13862),
    Curve(2716375819, 33954628, 636302, 12701),
    Curve(2683044792, 32719996, 598226, 11661),
    Curve(2650911361, 31558413, 563264, 10729),
    Curve(2619905483, 30463967, 531097, 9890),
    Curve(2589962723, 29431349, 501444, 9134),
    Curve(2561023684, 28455778, 474058, 8450),
    Curve(2533033514, 27532936, 448720, 7831),
    Curve(2505941468, 26658918, 425239, 7269),
    Curve(2479700520, 25830183, 403443, 6758),
    Curve(2454267022, 25043513, 383179, 6292),
    Curve(2429600396, 24295978, 364311, 5867),
    Curve(2405662862, 23584907, 346719, 5477),
    Curve(2382419198, 22907855, 330294, 5121),
    Curve(2359836516, 22262589, 314938, 4794),
    Curve(2337884071, 21647057, 300563, 4493),
    Curve(2316533085, 21059375, 287089, 4216),
    Curve(2295756583, 20497811, 274447, 3960),
    Curve(2275529259, 19960769, 262570, 3724),
    Curve(2255827336, 19446774, 251401, 3506),
    Curve(2236628456, 18954466, 240885, 3304),
    Curve(2217911570, 18482585, 230976, 3117),
    Curve(2199656845, 18029964, 221627, 2943),
    Curve(2181845565, 17595519, 212800, 2782),
    Curve(2164460064, 17178245, 204457, 2631),
    Curve(4294967277, 67108599, 1571532, 38804),
    Curve(4229391408, 64081457, 1455241, 34898),
    Curve(4166730295, 61275243, 1350648, 31484),
    Curve(4106774217, 58668025, 1256282, 28487),
    Curve(4049333988, 56240593, 1170894, 25848),
    Curve(3994238442, 53976056, 1093415, 23515),
    Curve(3941332286, 51859512, 1022926, 21445),
    Curve(3890474256, 49877765, 958638, 19604),
    Curve(3841535526, 48019096, 899867, 17962),
    Curve(3794398336, 46273063, 846019, 16492),
    Curve(3748954800, 44630335, 796575, 15173),
    Curve(3705105868, 43082555, 751084, 13987),
    Curve(3662760409, 41622213, 709149, 12917),
    Curve(3621834429, 40242547, 670419, 11951),
    Curve(3582250350, 38937451, 634587, 11075),
    Curve(3543936411, 37701403, 601379, 10280),
    Curve(3506826107, 36529395, 570554, 9557),
    Curve(3470857709, 35416876, 541896, 8898),
    Curve(3435973832, 34359702, 515214, 8297),
    Curve(3402121048, 33354095, 490335, 7746),
    Curve(3369249542, 32396600, 467106, 7242),
    Curve(3337312806, 31484055, 445389, 6779),
    Curve(3306267361, 30613561, 425060, 6354),
    Curve(3276072507, 29782454, 406006, 5962),
    Curve(3246690098, 28988283, 388127, 5601),
    Curve(3218084341, 28228790, 371330, 5267),
    Curve(3190221614, 27501892, 355534, 4959),
    Curve(3163070298, 26805663, 340663, 4673),
    Curve(3136600625, 26138323, 326649, 4408),
    Curve(3110784543, 25498219, 313428, 4162),
    Curve(3085595590, 24883822, 300945, 3934),
    Curve(3061008779, 24293708, 289146, 3721),
];

// The curve that a pattern chooses, by the exponent's last digit and the first five of the fraction.
fn curve_of(pattern: u64) -> Curve
    ensures { Curved result.0 result.1 result.2 result.3 }
{
    CURVES[(pattern / 0x8000_0000_0000 % 64) as usize]
}

// Near to 2 ^ 32 / √y, for the y from 1 to 4 that the number of the pattern is but for an even power of two. The 32 digits after those that choose the curve
// are d. That the estimate is good is not promised: whole_root looks at each.
pub fn reciprocal_root(pattern: u64) -> u64
    ensures { result < 2 ^ 32 }
{
    let k = curve_of(pattern);
    let d = pattern / 0x8000 % 0x1_0000_0000;
    let dd = d * d / 0x1_0000_0000;
    let bent = (k.2 - k.3 * d / 0x1_0000_0000) * dd / 0x1_0000_0000;
    k.0 - (k.1 * d / 0x1_0000_0000 - bent)
}
