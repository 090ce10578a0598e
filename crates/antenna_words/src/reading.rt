// The antenna record in words.
ghost use Rattle.std.specs.Prelude.{◌≡◌, ◌+◌, ◌≤◌, length};
ghost use Rattle.words.specs.Patterns.{floats};
ghost use Rattle.antenna_words.specs.Reading.{constants_of, elements_of, trig_of, ground_of, peak_of, antenna_of, antenna_in};

use crate::counts::counts_at;
use antenna::record::Antenna;
use model::record::{Constants, Elements, Ground, Model, Trig};
use packed::arrays::{floats_at, floats_in};
use search::record::Peak;

// All words as floats, in one go: the counts among them are read from the words.
#[tactic(auto, using(crate::proofs::Places::whole))]
fn all_floats(words: &[u32]) -> [f32; 998]
    requires { length words.now ≡ 998 }
    ensures { result ≡ floats words.now }
{
    floats_in(words, 0)
}

#[tactic(auto, unfolding(crate::specs::Reading::constants_of))]
fn constants_of(k: [f32; 16]) -> Constants
    ensures { result ≡ constants_of k }
{
    Constants {
        d1: k[0],
        e1: k[1],
        beta: k[2],
        cpfr: k[3],
        cp11: k[4],
        fr1: k[5],
        h1: k[6],
        pfr: k[7],
        p11: k[8],
        p11s: k[9],
        q2: k[10],
        r2: k[11],
        r3: k[12],
        sl: k[13],
        costh: k[14],
        sinth: k[15],
    }
}

#[tactic(auto, unfolding(crate::specs::Reading::elements_of))]
fn elements_of(words: &[u32], fs: &[f32; 998]) -> Elements
    requires { length words.now ≡ 998 }
    ensures { result ≡ elements_of words.now fs.now }
{
    Elements {
        fi: floats_at(fs, 18),
        rim: floats_at(fs, 54),
        x: floats_at(fs, 90),
        y: floats_at(fs, 126),
        iek: counts_at(words, 162),
        rl: floats_at(fs, 198),
        h: floats_at(fs, 234),
        nat: words[265] as usize,
    }
}

#[tactic(auto, unfolding(crate::specs::Reading::trig_of))]
fn trig_of(fs: &[f32; 998]) -> Trig
    ensures { result ≡ trig_of fs.now }
{
    Trig {
        a: floats_at(fs, 266),
        b: floats_at(fs, 357),
    }
}

#[tactic(auto, unfolding(crate::specs::Reading::ground_of))]
fn ground_of(fs: &[f32; 998]) -> Ground
    ensures { result ≡ ground_of fs.now }
{
    Ground {
        w3: floats_at(fs, 448),
        w4: floats_at(fs, 539),
        w5: floats_at(fs, 630),
        w6: floats_at(fs, 721),
        w9: floats_at(fs, 812),
        w10: floats_at(fs, 903),
    }
}

#[tactic(auto, unfolding(crate::specs::Reading::peak_of))]
fn peak_of(k: [f32; 3]) -> Peak
    ensures { result ≡ peak_of k }
{
    Peak {
        z6: k[0],
        umax: k[1],
        vmax: k[2],
    }
}

// The record by its words and by their floats.
#[tactic(auto, unfolding(crate::specs::Reading::antenna_of))]
fn antenna_of(words: &[u32], fs: &[f32; 998]) -> Antenna
    requires { length words.now ≡ 998 }
    ensures { result ≡ antenna_of words.now fs.now }
{
    Antenna {
        model: Model {
            iant: words[0],
            slewed: words[1] != 0,
            constants: constants_of(floats_at(fs, 2)),
            elements: elements_of(words, fs),
            trig: trig_of(fs),
            ground: ground_of(fs),
        },
        peak: peak_of(floats_at(fs, 994)),
        sum: words[997],
    }
}

// The antenna record in 998 words, whatever they are. An inner step: the caller sees that there are
// so many.
#[tactic(auto, unfolding(crate::specs::Reading::antenna_in))]
pub fn antenna_in(words: &[u32]) -> Antenna
    requires { length words.now ≡ 998 }
    ensures { result ≡ antenna_in words.now }
{
    let fs = all_floats(words);
    antenna_of(words, &fs)
}
