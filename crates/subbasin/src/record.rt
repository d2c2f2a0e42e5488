// A sub-basin's record: the words of the basin file, the lag line and the channel store; and its limits.
ghost use Rattle.std.specs.Prelude.{◌≡◌, ◌<◌, IfSome, unwrap_or};
ghost use Rattle.subbasin.specs.Record.{word_count, most_slow, most_snow, words_of, of_words, first_outside, record_in, is_blank};

use common::shares::ONE;
use curve::store::MOST_CONTENT;

// The words that no step changes, L apart. Area in km², capacities in µm, shares in parts of 65,536, the melt factor F in µm a degree, the
// snow threshold in thousandths of a degree Celsius.
#[derive(Clone, Copy, PartialEq, Eq, Default)]
pub struct Parameters {
    pub area: u64,
    pub k: u64,
    pub um: u64,
    pub lm: u64,
    pub dm: u64,
    pub c: u64,
    pub bn: u64,
    pub im: u64,
    pub sm: u64,
    pub xn: u64,
    pub ki: u64,
    pub kg: u64,
    pub ci: u64,
    pub cg: u64,
    pub cs: u64,
    pub reach: u64,
    pub f: u64,
    pub threshold: u64,
}

// What waits over the sub-basin, in µm: tension water by layer, free water, interflow and ground water, and snow.
#[derive(Clone, Copy, PartialEq, Eq, Default)]
pub struct Contents {
    pub wu: u64,
    pub wl: u64,
    pub wd: u64,
    pub g: u64,
    pub vi: u64,
    pub vg: u64,
    pub sn: u64,
}

// Up to 15 amounts in m³ in waiting, the newest first, and the lag L in steps. All 15 places are there, as 9 speaks of the unused ones.
#[derive(Clone, Copy, PartialEq, Eq, Default)]
pub struct LagLine {
    pub lag: u64,
    pub waiting: [u64; 15],
}

// The lag line and the channel (CS) store's content in m³ complete the record.
#[derive(Clone, Copy, PartialEq, Eq, Default)]
pub struct SubBasin {
    pub fixed: Parameters,
    pub contents: Contents,
    pub line: LagLine,
    pub channel: u64,
}

// How many words a record has in the file, and their names.
pub const WORDS: usize = 26;

pub const NAMES: [&str; WORDS] = [
    "area",
    "K",
    "UM",
    "LM",
    "DM",
    "C",
    "BN",
    "IM",
    "SM",
    "XN",
    "KI",
    "KG",
    "CI",
    "CG",
    "CS",
    "L",
    "REACH",
    "WU",
    "WL",
    "WD",
    "G",
    "VI",
    "VG",
    "F",
    "threshold",
    "SN",
];

// Who sent a record: what waits in it has a range by that.
#[derive(Clone, Copy)]
pub enum Sender {
    // The file's author.
    Author,
    // A host program, which hands in a basin.
    Host,
}

impl Sender {
    // The most of VI and VG.
    pub fn most_slow(self) -> u64
        ensures { result ≡ most_slow self }
    {
        match self {
            Sender::Author => 1000000,
            Sender::Host => 1 << 33,
        }
    }

    // The most of SN.
    pub fn most_snow(self) -> u64
        ensures { result ≡ most_snow self }
    {
        match self {
            Sender::Author => 3000000,
            Sender::Host => SNOW_MARK,
        }
    }
}

// Snow rises no higher, in µm.
pub const SNOW_MARK: u64 = 1 << 40;

// The record of a file's words. Lag line and CS store start empty.
impl From<[u64; WORDS]> for SubBasin {
    ghost from_gives = { λ v s. s ≡ of_words v };

    fn from(v: [u64; WORDS]) -> SubBasin {
        let [
            area,
            k,
            um,
            lm,
            dm,
            c,
            bn,
            im,
            sm,
            xn,
            ki,
            kg,
            ci,
            cg,
            cs,
            lag,
            reach,
            wu,
            wl,
            wd,
            g,
            vi,
            vg,
            f,
            threshold,
            sn,
        ] = v;
        SubBasin {
            fixed: Parameters {
                area,
                k,
                um,
                lm,
                dm,
                c,
                bn,
                im,
                sm,
                xn,
                ki,
                kg,
                ci,
                cg,
                cs,
                reach,
                f,
                threshold,
            },
            contents: Contents {
                wu,
                wl,
                wd,
                g,
                vi,
                vg,
                sn,
            },
            line: LagLine {
                lag,
                waiting: [0; 15],
            },
            channel: 0,
        }
    }
}

impl SubBasin {
    // Its words, in the file's order.
    pub fn words(&self) -> [u64; WORDS]
        ensures { result ≡ words_of self.now }
    {
        let p = &self.fixed;
        let w = &self.contents;
        [
            p.area,
            p.k,
            p.um,
            p.lm,
            p.dm,
            p.c,
            p.bn,
            p.im,
            p.sm,
            p.xn,
            p.ki,
            p.kg,
            p.ci,
            p.cg,
            p.cs,
            self.line.lag,
            p.reach,
            w.wu,
            w.wl,
            w.wd,
            w.g,
            w.vi,
            w.vg,
            p.f,
            p.threshold,
            w.sn,
        ]
    }

    // The number of the first word outside its range, counted from 0. REACH is up to m.
    pub fn first_outside(&self, m: u64, sender: Sender) -> Option<usize>
        ensures numbered { unwrap_or result word_count ≡ first_outside m sender self.now }
        ensures a_word { IfSome result (λ k. k < word_count) }
    {
        let p = &self.fixed;
        let w = &self.contents;
        let slow = sender.most_slow();
        let snow = sender.most_snow();
        // the least that each may be, the word, and the most
        let words = [
            (1, p.area, 5000),
            (0, p.k, 131072),
            (0, p.um, 100000),
            (1, p.lm, 200000),
            (0, p.dm, 200000),
            (0, p.c, 65535),
            (16, p.bn, 32),
            (0, p.im, 32768),
            (1, p.sm, 100000),
            (16, p.xn, 48),
            (0, p.ki, ONE),
            (0, p.kg, ONE.saturating_sub(p.ki)),
            (0, p.ci, 65535),
            (0, p.cg, 65535),
            (0, p.cs, 65535),
            (0, self.line.lag, 15),
            (0, p.reach, m),
            (0, w.wu, p.um),
            (0, w.wl, p.lm),
            (0, w.wd, p.dm),
            (0, w.g, p.sm),
            (0, w.vi, slow),
            (0, w.vg, slow),
            (0, p.f, 20000),
            (0, p.threshold, 10000),
            (0, w.sn, snow),
        ];
        words.iter().position(|&(lo, x, hi)| x < lo || hi < x)
    }

    // Whether 9 allows the record, with REACH up to m.
    #[tactic(auto, using(crate::proofs::record::RecordLaws::record_tests))]
    pub fn allowed(&self, m: u64) -> bool
        ensures { result ≡ record_in m self.now }
    {
        self.first_outside(m, Sender::Host).is_none()
            && self.channel <= MOST_CONTENT
            && self.line.allowed()
    }

    // Whether it is all zeros.
    pub fn is_blank(&self) -> bool
        ensures { result ≡ is_blank self.now }
    {
        *self == SubBasin::default()
    }
}
