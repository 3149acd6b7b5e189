//! How far the records of a log reach: where the body of each stands, and the record of a put that is undecided.
ghost use Rattle.std.specs.Prelude.{◌≡◌, ◌+◌, ◌<◌, ◌≤◌, ◌^◌, [], ◌∷◌, ◌++◌, length, OnOk, OnErr, slice_get, Some};
ghost use Rattle.record_log.specs.declared.extent.Stage.{Stage as AnyStage};
ghost use Rattle.record_log.specs.declared.extent.Stage.TheVariants.{Settled};
ghost use Rattle.record_log.specs.Sizes.{total_of, undecided_bytes, opened, kept_in};
ghost use Rattle.record_log.specs.Places.{places_from};

use base_core::Want;
use std::alloc::Global;
use std::marker::Model;

/// The bytes of a gate, and of the length of a body behind it.
pub const HEAD_SIZE: u64 = 5;

/// Where a body stands in its file.
#[derive(Clone, Copy)]
pub struct Place {
    pub start: u64,
    pub size: u32,
}

/// How far the last put came.
#[derive(Clone, Copy)]
pub enum Stage {
    /// Its record is in, or was refused: the last gate is closed.
    Settled,
    /// It failed before it began to write its gate, which is closed as it was. The size is that of its body.
    Begun { size: u32 },
    /// It failed when the record was on the disk and its gate had begun to be written.
    Opening { size: u32 },
}

/// The records of a log. It always has room for the place of the undecided one.
#[derive(Drop)]
pub struct Extent {
    // Of the records that are in.
    places: Vec<Place>,
    // The place of the last gate, behind the records that are in.
    end: u64,
    stage: Stage,
}

impl Model for Extent {
    ghost use Rattle.std.specs.Prelude.{◌-◌, vec_len, vec_capacity};
    ghost use Rattle.record_log.specs.Sizes.{LogSizes};

    ghost Value = { LogSizes };

    ghost use Rattle.record_log.specs.Places.{sizes_at, AreTied};

    ghost view = { λ e. record { sizes = sizes_at e.places.items; stage = e.stage; room = vec_capacity e.places - vec_len e.places } };

    ghost invariant = { λ e. AreTied e.places.items e.end e.stage (vec_capacity e.places - vec_len e.places) };
}

impl Extent {
    pub fn new(alloc: Global) -> Extent
        ensures { result ≡ record { sizes = []; stage = Settled; room = 0 } }
    {
        Extent {
            places: Vec::new(alloc),
            end: 0,
            stage: Stage::Settled,
        }
    }

    /// How many records are in.
    pub fn count(&self) -> u64
        ensures { result ≡ length self.now.sizes }
    {
        self.places.len() as u64
    }

    /// Where the body of the k-th record stands.
    pub fn at(&self, k: usize) -> Place
        requires { k < length self.now.sizes }
        ensures { slice_get (places_from 0 self.now.sizes) k ≡ Some result }
    {
        self.places[k]
    }

    /// The place of the last gate, behind the records that are in.
    pub fn end(&self) -> u64
        ensures { result ≡ total_of self.now.sizes }
    {
        self.end
    }

    pub fn stage(&self) -> Stage
        ensures { result ≡ self.now.stage }
    {
        self.stage
    }

    /// The place of the last gate, if the undecided record is kept.
    pub fn kept_end(&self) -> u64
        ensures { result ≡ total_of self.now.sizes + undecided_bytes self.now.stage }
    {
        match self.stage {
            Stage::Settled => self.end,
            Stage::Begun { size } | Stage::Opening { size } => {
                self.end + HEAD_SIZE + u64::from(size)
            }
        }
    }

    /// Adds a record that was found behind the others.
    pub fn add(&mut self, size: u32) -> Result<(), Want>
        requires settled { self.old.stage ≡ Settled }
        requires fits { total_of self.old.sizes + 5 + size < 2 ^ 64 }
        ensures sizes { OnOk result (self.new.sizes ≡ self.old.sizes ++ size ∷ []) }
        ensures settled { OnOk result (self.new.stage ≡ Settled) }
    {
        let start = self.end + HEAD_SIZE;
        self.places.push(Place { start, size })?;
        self.end = start + u64::from(size);
        Ok(())
    }

    /// Takes the memory for two records more: an undecided one, and one behind it. After an `Err` the extent is as it was.
    pub fn reserve(&mut self) -> Result<(), Want>
        ensures sizes { self.new.sizes ≡ self.old.sizes }
        ensures stage { self.new.stage ≡ self.old.stage }
        ensures ok { OnOk result (2 ≤ self.new.room) }
        ensures err { OnErr result (self.new ≡ self.old) }
    {
        self.places.reserve(2)?;
        Ok(())
    }

    /// Begins with a record of this size.
    pub fn begin(&mut self, size: u32)
        requires room { 0 < self.old.room }
        requires fits { total_of self.old.sizes + 5 + size < 2 ^ 64 }
        ensures { self.new ≡ record self.old { stage = AnyStage.Begun size } }
    {
        self.stage = Stage::Begun { size };
    }

    /// The gate of the undecided record begins to be written.
    pub fn open(&mut self)
        ensures { self.new ≡ record self.old { stage = opened self.old.stage } }
    {
        if let Stage::Begun { size } = self.stage {
            self.stage = Stage::Opening { size };
        }
    }

    /// Takes the undecided record in.
    pub fn keep(&mut self)
        ensures { self.new ≡ kept_in self.old }
    {
        let (Stage::Begun { size } | Stage::Opening { size }) = self.stage else {
            return;
        };
        let start = self.end + HEAD_SIZE;
        self.places.push_reserved(Place { start, size });
        self.end = start + u64::from(size);
        self.stage = Stage::Settled;
    }

    /// Leaves the undecided record out.
    pub fn leave_out(&mut self)
        ensures { self.new ≡ record self.old { stage = Settled } }
    {
        self.stage = Stage::Settled;
    }
}
