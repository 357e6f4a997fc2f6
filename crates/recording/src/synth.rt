ghost use Rattle.std.specs.Prelude.{◌≡◌, ◌≤◌, ◌*◌, ℕ, min, length, drop, IsOk, OnOk, OnErr};
ghost use Rattle.std.specs.Io.{ReadsAtMost};
ghost use Rattle.outside.specs.Fault.{HasCause};
ghost use Rattle.outside.specs.Source.{TakesFrom, EndsAtZero};
ghost use Rattle.recording.specs.Samples.{sample_bytes};
ghost use Rattle.recording.specs.Synth.{next_state, made_sample, made_samples, state_after};

use byteorder::{ByteOrder, LittleEndian};
use calibration::MAX_SAMPLES;
use outside::{Failed, Source};
use std::marker::Model;

const MULTIPLIER: u64 = 6364136223846793005;

const INCREMENT: u64 = 1442695040888963407;

/// A source of made samples, without a head, by a linear congruential generator. It never fails.
#[derive(Drop)]
pub struct Synth {
    // Before the next sample that is not given whole.
    state: u64,
    // The samples that are not given whole.
    samples: u64,
    // The bytes of the next one that were given.
    given: usize,
}

impl Model for Synth {
    ghost use Rattle.std.specs.Prelude.{◌≡◌, ◌<◌, ℕ, List, drop};
    ghost use Rattle.recording.specs.Samples.{sample_bytes};
    ghost use Rattle.recording.specs.Synth.{made_samples};

    ghost Value = { List ℕ };

    ghost view = { λ s. drop s.given (sample_bytes (made_samples s.samples s.state)) };

    ghost invariant = { λ s. (s.given < 4) × (s.samples ≡ 0 → s.given ≡ 0) };
}

impl Synth {
    /// A source of so many samples from `seed`, four bytes each.
    pub fn new(seed: u64, samples: u64) -> Synth
        requires { samples ≤ MAX_SAMPLES }
        ensures { result ≡ sample_bytes (made_samples samples seed) }
    {
        Synth {
            state: seed,
            samples,
            given: 0,
        }
    }
}

fn next_state(state: u64) -> u64
    ensures { result ≡ next_state state }
{
    state.wrapping_mul(MULTIPLIER).wrapping_add(INCREMENT)
}

fn made_sample(state: u64) -> i32
    ensures { result ≡ made_sample state }
{
    (state >> 57) as i32 - 64
}

// Fills `bytes` with the samples behind `state`, and answers the state behind them.
fn make_samples(mut state: u64, samples: usize, bytes: &mut [u8]) -> u64
    requires { length bytes.old ≡ 4 * samples }
    ensures bytes { bytes.new ≡ sample_bytes (made_samples samples state) }
    ensures state { result ≡ state_after samples state }
{
    for i in 0..samples {
        state = next_state(state);
        LittleEndian::write_i32(&mut bytes[4 * i..4 * i + 4], made_sample(state));
    }
    state
}

impl Source for Synth {
    ghost tells = { Unit {0} };

    ghost left = { λ s. s };

    ghost faults = { λ _. 0 };

    ghost failed_last = { λ _. ⊥ };

    ghost number = { λ _. 0 };

    fn take(&mut self, buf: &mut [u8]) -> Result<usize, Failed>
        ensures bound { ReadsAtMost result buf.new }
        ensures bytes { Unit {0} → TakesFrom self.old self.new result buf.new }
        ensures end { Unit {0} → EndsAtZero self.old result buf.old }
        ensures failed { Unit {0} → OnErr result (self.new ≡ self.old) }
        ensures last { OnErr result ⊥ }
        ensures cause { HasCause 0 0 result }
        ensures steady { OnOk result (◌≡◌ {A = ℕ} 0 0) }
        ensures number { ◌≡◌ {A = ℕ} 0 0 }

        ensures never_fails { IsOk result }
    {
        if self.samples == 0 {
            return Ok(0);
        }
        if self.given == 0 && buf.len() >= 4 {
            // As many whole samples as there is room for.
            let samples = (buf.len() as u64 / 4).min(self.samples);
            let n = samples as usize;
            self.state = make_samples(self.state, n, &mut buf[..4 * n]);
            self.samples -= samples;
            return Ok(4 * n);
        }
        // At most what is left of one sample.
        let next = next_state(self.state);
        let bytes = made_sample(next).to_le_bytes();
        let n = buf.len().min(4 - self.given);
        buf[..n].copy_from_slice(&bytes[self.given..self.given + n]);
        self.given += n;
        if self.given == 4 {
            self.state = next;
            self.samples -= 1;
            self.given = 0;
        }
        Ok(n)
    }
}
