//! What no clause of gd_games says of the file of a setup: that each rule has the name and the limits of docs/FORMATS.md, that
//! the file of the built-in setup is read as that setup, and its digest as another program computes it.

use gd_base::{REEL_PAYS, STRIPS, Setup};
use gd_games::{MOST_FILE_LEN, SetupError, SetupFault, built_in, read_setup, setup_digest};
use std::test::Fail;

/// The built-in setup, written out whole.
const WHOLE: &str = r#"
denom = 5
credit_limit = 1000000
handpay_limit = 120000
gamble_limit = 20000
bills = [100, 500, 1000, 2000, 5000, 10000]
coin = 25
hopper = true
hopper_limit = 2000
voucher_limit = 300000

[reels]
enabled = true
strips = [
    "WABCDEFSABCDEFABCDEFBCDEFCDEFDEF",
    "SFEDCBAWFEDCBAFEDCBAFEDCBFEDCFED",
    "ADBECFWADBECFSADBECFDBECFDECFDEF",
    "FCEBDASFCEBDAWFCEBDAFCEBDFCEDFED",
    "CFBEADSCFBEADWCFBEADCFBEDCFEDFED",
]
prizes = [2, 4, 6, 10, 20]

[reels.pays]
W = [100, 500, 2000]
A = [50, 200, 1000]
B = [30, 100, 400]
C = [20, 60, 200]
D = [10, 30, 100]
E = [5, 20, 60]
F = [5, 15, 50]

[poker]
enabled = true
pays = [250, 50, 25, 9, 6, 4, 3, 2, 1]
"#;

/// Files that break a rule, with its name.
#[rattlefmt::skip]
const BROKEN: [(&str, &str); 60] = [
    ("denom", "text"),
    ("denom = 1\ndenom = 1", "text"),
    ("denom = 9223372036854775808", "text"),
    ("x = 1\ny = -9223372036854775809", "text"),
    ("x = 1", "key"),
    ("reels.x = 1", "key"),
    ("reels.pays.S = [1, 2, 3]", "key"),
    ("poker.x = 1", "key"),
    ("reels = 1", "key"),
    ("denom = 5.0", "key"),
    ("denom = \"5\"", "key"),
    ("denom = 1979-05-27", "key"),
    ("hopper = 1", "key"),
    ("bills = 100", "key"),
    ("bills = [100, 500.0]", "key"),
    ("bills = [1, 1, 1, 1, 1, 1, 1, 1, \"a\"]", "key"),
    ("reels.strips = [1]", "key"),
    ("reels.pays.W = [1, 2, true]", "key"),
    ("[[reels]]\nenabled = true", "key"),
    ("[poker.pays]\na = 1", "key"),
    ("denom = 0", "denom"),
    ("denom = 101", "denom"),
    ("denom = -1", "denom"),
    ("credit_limit = 0", "credit"),
    ("credit_limit = 100000001", "credit"),
    ("credit_limit = 0\ndenom = 0", "denom"),
    ("handpay_limit = 0", "handpay"),
    ("handpay_limit = 100000001", "handpay"),
    ("gamble_limit = -1", "gamble"),
    ("gamble_limit = 1000001", "gamble"),
    ("bills = [0]", "bills"),
    ("bills = [100000001]", "bills"),
    ("bills = [5, 5]", "bills"),
    ("bills = [1, 2, 3, 4, 5, 6, 7, 8, 9]", "bills"),
    ("coin = 0", "coin"),
    ("coin = 10001", "coin"),
    ("coin = 4294967297", "coin"),
    ("hopper_limit = -1", "payout"),
    ("hopper_limit = 100001", "payout"),
    ("voucher_limit = 0", "payout"),
    ("voucher_limit = 100000001", "payout"),
    ("reels.strips = []", "strips"),
    ("reels.strips = [\"WABCDEFSABCDEFABCDEFBCDEFCDEFDEF\"]", "strips"),
    ("reels.strips = [\"WABCDEFSABCDEFABCDEFBCDEFCDEFDEF\", \"WABCDEFSABCDEFABCDEFBCDEFCDEFDEF\", \"WABCDEFSABCDEFABCDEFBCDEFCDEFDEF\", \"WABCDEFSABCDEFABCDEFBCDEFCDEFDEF\", \"WABCDEFSABCDEFABCDEFBCDEFCDEFDE\"]", "strips"),
    ("reels.strips = [\"WABCDEFSABCDEFABCDEFBCDEFCDEFDEF\", \"WABCDEFSABCDEFABCDEFBCDEFCDEFDEF\", \"WABCDEFSABCDEFABCDEFBCDEFCDEFDEF\", \"WABCDEFSABCDEFABCDEFBCDEFCDEFDEF\", \"wABCDEFSABCDEFABCDEFBCDEFCDEFDEF\"]", "strips"),
    ("reels.pays = {}", "reels"),
    ("reels.pays.W = [1, 2, 3]", "reels"),
    ("[reels.pays]\nW = [1, 2, 3]\nA = [1, 2, 3]\nB = [1, 2, 3]\nC = [1, 2, 3]\nD = [1, 2, 3]\nE = [1, 2, 3]", "reels"),
    ("[reels.pays]\nW = [1, 2, 3]\nA = [1, 2, 3]\nB = [1, 2, 3]\nC = [1, 2, 3]\nD = [1, 2, 3]\nE = [1, 2, 3]\nF = [1, 2]", "reels"),
    ("[reels.pays]\nW = [1, 2, 3]\nA = [1, 2, 3]\nB = [1, 2, 3]\nC = [1, 2, 3]\nD = [1, 2, 3]\nE = [1, 2, 3]\nF = [1, 2, 5001]", "reels"),
    ("reels.prizes = [1, 2, 3, 4]", "reels"),
    ("reels.prizes = [1, 2, 3, 4, 5, 6]", "reels"),
    ("reels.prizes = [1, 2, 3, 4, 5001]", "reels"),
    ("reels.prizes = [-1, 2, 3, 4, 5]", "reels"),
    ("poker.pays = [1, 2, 3, 4, 5, 6, 7, 8]", "poker"),
    ("poker.pays = [1, 2, 3, 4, 5, 6, 7, 8, 5001]", "poker"),
    ("poker.pays = []\nreels.prizes = []", "reels"),
    ("poker.pays = []\nreels.strips = []\nhopper_limit = -1", "payout"),
    ("poker.pays = []\ncoin = 0\nbills = [0]\ngamble_limit = -1", "gamble"),
    ("poker.pays = [1, 2, 3, 4, 5, 6, 7, 8, 9]\npoker.y = 2\ncredit_limit = 0", "key"),
];

#[test]
fn each_rule_has_its_name(rt: HostRuntime) {
    for (text, name) in BROKEN {
        match read_setup(rt.alloc(), text.as_bytes()) {
            Err(SetupError::Fault(fault)) => assert_eq!(rt; fault.name(), name, "at {text}"),
            _ => assert!(rt; false, "{text}"),
        }
    }
}

/// Files that lie just within the limits.
#[rattlefmt::skip]
const WITHIN: [&str; 28] = [
    "",
    "# nothing\n",
    "reels = {}\n[poker]",
    "denom = 1",
    "denom = 0x64",
    "credit_limit = 1",
    "credit_limit = 100000000",
    "handpay_limit = 1",
    "handpay_limit = 100_000_000",
    "gamble_limit = 0",
    "gamble_limit = 1000000",
    "bills = []",
    "bills = [1, 2, 3, 4, 5, 6, 7, 100000000]",
    "coin = 1",
    "coin = 10000",
    "hopper = false",
    "hopper_limit = 0",
    "hopper_limit = 100000",
    "voucher_limit = 1",
    "voucher_limit = 100000000",
    "reels.enabled = false",
    "reels.strips = [\"WABCDEFSABCDEFABCDEFBCDEFCDEFDEF\", \"WABCDEFSABCDEFABCDEFBCDEFCDEFDEF\", \"WABCDEFSABCDEFABCDEFBCDEFCDEFDEF\", \"WABCDEFSABCDEFABCDEFBCDEFCDEFDEF\", \"SSSSSSSSSSSSSSSSSSSSSSSSSSSSSSSS\"]",
    "[reels.pays]\nW = [1, 2, 3]\nA = [1, 2, 3]\nB = [1, 2, 3]\nC = [1, 2, 3]\nD = [1, 2, 3]\nE = [0, 0, 0]\nF = [5000, 5000, 5000]",
    "reels.prizes = [0, 5000, 0, 5000, 0]",
    "poker.enabled = false",
    "poker.pays = [5000, 0, 5000, 0, 5000, 0, 5000, 0, 5000]",
    "poker = { enabled = true, pays = [9, 8, 7, 6, 5, 4, 3, 2, 1] }",
    "\u{feff}denom = 100",
];

#[test]
fn limits_are_within(rt: HostRuntime) {
    for text in WITHIN {
        assert!(rt; read_setup(rt.alloc(), text.as_bytes()).is_ok(), "{text}");
    }
}

/// A setup of two bills, of which a file leaves out some keys.
fn own_setup() -> Setup {
    Setup {
        denom: 1,
        credit_limit: 1_000_000,
        handpay_limit: 120_000,
        gamble_limit: 20_000,
        bills: [7, 9, 0, 0, 0, 0, 0, 0],
        bill_count: 2,
        coin: 25,
        hopper: false,
        hopper_limit: 2000,
        voucher_limit: 300_000,
        reels_enabled: true,
        strips: STRIPS,
        reel_pays: REEL_PAYS,
        prizes: [5, 4, 3, 2, 1],
        poker_enabled: true,
        poker_pays: [9, 8, 7, 6, 5, 4, 3, 2, 1],
    }
}

#[test]
fn keys_are_read(rt: HostRuntime) {
    assert_eq!(rt; read_setup(rt.alloc(), b""), Ok(built_in()));
    assert_eq!(rt; read_setup(rt.alloc(), WHOLE.as_bytes()), Ok(built_in()));
    let few =
        "denom = 1\nbills = [7, 9]\nhopper = false\npoker.pays = [9, 8, 7, 6, 5, 4, 3, 2, 1]\nreels.prizes = [5, 4, 3, 2, 1]";
    let wanted = own_setup();
    assert_eq!(rt; read_setup(rt.alloc(), few.as_bytes()), Ok(wanted));
}

#[test]
fn bytes_are_few_and_text(rt: HostRuntime) -> Result<(), Fail> {
    let text = Err(SetupError::Fault(SetupFault::Text));
    let mut bytes = vec![in rt.alloc(); b'\n'; MOST_FILE_LEN]?;
    assert_eq!(rt; read_setup(rt.alloc(), bytes.as_slice()), Ok(built_in()));
    bytes.push(b'\n')?;
    assert_eq!(rt; read_setup(rt.alloc(), bytes.as_slice()), text);
    assert_eq!(rt; read_setup(rt.alloc(), b"# \xff"), text);
    assert_eq!(rt; read_setup(rt.alloc(), b"denom = 0 # \xc3"), text);
    Ok(())
}

#[test]
fn digests_are_those_of_another_program(rt: HostRuntime) {
    let own = [
        0x52, 0xb9, 0xd8, 0x00, 0x93, 0xab, 0x6a, 0x53, 0x64, 0xb1, 0x76, 0x97, 0x94, 0x9a, 0x86,
        0x77, 0x7b, 0x88, 0x9b, 0xd9, 0x19, 0x8b, 0xf1, 0x41, 0x7b, 0xd4, 0x52, 0x1e, 0x72, 0xa8,
        0x9f, 0x96,
    ];
    assert_eq!(rt; setup_digest(&built_in()), own);
    let another = [
        0xb6, 0x46, 0xba, 0xd0, 0xac, 0xac, 0xc0, 0x2d, 0x6b, 0x4d, 0x51, 0xc4, 0x6d, 0xd4, 0xf0,
        0x57, 0x28, 0x75, 0xd5, 0xe9, 0xb8, 0x75, 0x8c, 0x29, 0xa2, 0x6d, 0x39, 0x0d, 0xd6, 0x12,
        0xa8, 0x41,
    ];
    assert_eq!(rt; setup_digest(&own_setup()), another);
}
