// Failures to come.
ghost use Rattle.std.specs.Prelude.{◌≡◌, ◌==◌, ◌-◌, ◌++◌, ◌∷◌, [], map, OnOk, OnErr};
ghost use Rattle.disk.specs.Laid.{after_crash, after_arm, sooner as sooner_of};
ghost use Rattle.disk_mem.specs.Laid.{nothing_laid, laid_by, fires, fires_at_read, after_call, after_read};
ghost use Rattle.std.specs.List.{list_any};

use disk::{CrashForm, Fuse};
use std::alloc::{AllocError, Global};

/// The fuses that were laid. Each number counts the calls up to the one that fails, that one
/// included. A fuse that has burnt down stands at 0.
#[derive(Drop)]
pub(crate) struct Fuses {
    // Of writes, cuts and syncs.
    pub(crate) fails: Vec<u64>,
    // Of the first write, cut or sync that fails with all later ones. It stays at 1.
    pub(crate) stop: Option<u64>,
    // Of reads.
    pub(crate) read_fails: Vec<u64>,
    // The form of later crashes.
    pub(crate) form: CrashForm,
}

impl Fuses {
    pub(crate) fn new(alloc: Global) -> Fuses
        ensures { laid_by result ≡ nothing_laid }
    {
        Fuses {
            fails: Vec::new(alloc),
            stop: None,
            read_fails: Vec::new(alloc),
            form: CrashForm::Old,
        }
    }

    // Counts a write, a cut or a sync, and says whether it is to fail.
    pub(crate) fn burn(&mut self) -> bool
        ensures fires { result ≡ fires (laid_by self.old) }
        ensures burnt { laid_by self.new ≡ after_call (laid_by self.old) }
    {
        let stops = match self.stop {
            Some(1) => true,
            Some(number) => {
                self.stop = Some(number.saturating_sub(1).max(1));
                false
            }
            None => false,
        };
        burn_each(&mut self.fails) || stops
    }

    // Counts a read, and says whether it is to fail.
    pub(crate) fn burn_read(&mut self) -> bool
        ensures fires { result ≡ fires_at_read (laid_by self.old) }
        ensures burnt { laid_by self.new ≡ after_read (laid_by self.old) }
    {
        burn_each(&mut self.read_fails)
    }

    // Forgets the stop.
    pub(crate) fn crash(&mut self)
        ensures { laid_by self.new ≡ after_crash (laid_by self.old) }
    {
        self.stop = None;
    }

    // Lays one more. Without memory none is laid.
    pub(crate) fn arm(&mut self, fuse: Fuse) -> Result<(), AllocError>
        ensures ok { OnOk result (laid_by self.new ≡ after_arm fuse (laid_by self.old)) }
        ensures err { OnErr result (laid_by self.new ≡ laid_by self.old) }
    {
        match fuse {
            Fuse::Fail(number) => self.fails.push(number)?,
            Fuse::Stop(number) => self.stop = sooner(number, self.stop),
            Fuse::FailRead(number) => self.read_fails.push(number)?,
            Fuse::CrashAs(form) => self.form = form,
        }
        Ok(())
    }
}

// Brings each fuse one call nearer, and says whether one has come.
fn burn_each(numbers: &mut [u64]) -> bool
    ensures fires { result ≡ list_any (λ k. k == 1) numbers.old }
    ensures nearer { numbers.new ≡ map (λ k. k - 1) numbers.old }
{
    let fires = numbers.contains(&1);
    for number in numbers.iter_mut() {
        *number = number.saturating_sub(1);
    }
    fires
}

// The sooner of two stops. Number 0 is none.
fn sooner(number: u64, stop: Option<u64>) -> Option<u64>
    ensures { result ≡ sooner_of number stop }
{
    match stop {
        _ if number == 0 => stop,
        Some(other) => Some(number.min(other)),
        None => Some(number),
    }
}
