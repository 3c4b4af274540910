//! The bytes of all areas.
ghost use Rattle.std.specs.Prelude.{◌≡◌, [], take, IfOk, OnOk, OnErr};
ghost use Rattle.green_io.specs.Areas.{area_of};
ghost use Rattle.green_fakes.specs.DiskView.{put, written_at};

use crate::area_bytes::AreaBytes;
use febe_data::Memory;
use green_io::Area;
use std::alloc::Global;
use std::marker::Model;

/// The bytes of each area.
#[derive(Drop)]
pub(crate) struct AreaSet {
    pub(crate) log: AreaBytes,
    pub(crate) home: AreaBytes,
    pub(crate) journal: AreaBytes,
    pub(crate) second: AreaBytes,
}

impl Model for AreaSet {
    ghost use Rattle.green_io.specs.Areas.{Areas};

    ghost Value = { Areas };

    ghost view = { λ areas. record { log = areas.log; home = areas.home; journal = areas.journal; second = areas.second } };
}

impl AreaSet {
    pub(crate) fn new(alloc: Global) -> AreaSet
        ensures { result ≡ record { log = []; home = []; journal = []; second = [] } }
    {
        AreaSet {
            log: AreaBytes::new(alloc),
            home: AreaBytes::new(alloc),
            journal: AreaBytes::new(alloc),
            second: AreaBytes::new(alloc),
        }
    }

    pub(crate) fn copy(&self, alloc: Global) -> Result<AreaSet, Memory>
        ensures { IfOk result (λ areas. areas ≡ self.now) }
    {
        Ok(AreaSet {
            log: self.log.copy(alloc)?,
            home: self.home.copy(alloc)?,
            journal: self.journal.copy(alloc)?,
            second: self.second.copy(alloc)?,
        })
    }

    pub(crate) fn of(&self, area: Area) -> &[u8]
        ensures { result.now ≡ area_of area self.now }
    {
        match area {
            Area::Log => self.log.as_slice(),
            Area::Home => self.home.as_slice(),
            Area::Journal => self.journal.as_slice(),
            Area::Second => self.second.as_slice(),
        }
    }

    pub(crate) fn write(&mut self, area: Area, at: u64, bytes: &[u8]) -> Result<(), Memory>
        ensures written { OnOk result (self.new ≡ put area (written_at at bytes.now (area_of area self.old)) self.old) }
        ensures stays { OnErr result (self.new ≡ self.old) }
    {
        match area {
            Area::Log => self.log.write(at, bytes),
            Area::Home => self.home.write(at, bytes),
            Area::Journal => self.journal.write(at, bytes),
            Area::Second => self.second.write(at, bytes),
        }
    }

    pub(crate) fn cut(&mut self, area: Area, length: u64)
        ensures { self.new ≡ put area (take length (area_of area self.old)) self.old }
    {
        match area {
            Area::Log => self.log.cut(length),
            Area::Home => self.home.cut(length),
            Area::Journal => self.journal.cut(length),
            Area::Second => self.second.cut(length),
        }
    }
}
