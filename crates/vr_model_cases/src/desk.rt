//! What the lines before a question have left: a volume, and the stamp of the next entry.

use std::alloc::Global;
use std::mem::replace;
use vr_case_table::{Answer, Answers, Stop, small_of, word_of};
use vr_case_words::{parted, place_of, record_of};
use vr_catalog::{
    CatEntry, EntryKind, FreeSpace, RECORD_LENGTH, ShareOptions, SpaceUnit, write_entry,
};
use vr_history::Entry;
use vr_model::{Contents, FileState, OwnedArea, PartContent, PlacedItem, Stored};
use vr_types::{AreaNo, Bytes, Geometry, Kind, NAME_LIMIT, NameFault, PartNo, Place, dataset_name};

/// A volume as it was opened, the entries that were taken since, as it stands, and what the next
/// volume is opened with.
#[derive(Drop)]
pub struct ModelDesk {
    pub opening: FileState,
    pub entries: Vec<Entry>,
    pub state: FileState,
    pub stamp: u64,
    pub geometry: Geometry,
    pub contents: Vec<(u32, PartContent)>,
    pub owned: Vec<OwnedArea>,
}

impl ModelDesk {
    /// An empty volume of 129 blocks of 512 bytes, with a log of 8 blocks and areas of 7 intervals.
    pub fn new(alloc: Global) -> ModelDesk {
        let geometry = Geometry {
            size: 512,
            blocks: 129,
            log: 8,
            area: 7,
        };
        ModelDesk {
            opening: FileState::opening(alloc, geometry, Contents::empty(alloc), Vec::new(alloc)),
            entries: Vec::new(alloc),
            state: FileState::opening(alloc, geometry, Contents::empty(alloc), Vec::new(alloc)),
            stamp: 1,
            geometry,
            contents: Vec::new(alloc),
            owned: Vec::new(alloc),
        }
    }

    /// `volume SIZE BLOCKS LOG AREA`: the shape of the volumes that are opened from here on.
    pub fn shape(&mut self, text: &str, out: &mut Answers) -> Answer {
        let (size, rest) = parted(text);
        let (blocks, rest) = parted(rest);
        let (log, area) = parted(rest);
        let geometry = Geometry {
            size: word_of(size)?,
            blocks: word_of(blocks)?,
            log: word_of(log)?,
            area: word_of(area)?,
        };
        if !geometry.is_allowed() {
            return Err(Stop::Line);
        }
        self.geometry = geometry;
        out.ok()
    }

    /// Opens a volume with the contents and areas of the lines before.
    pub fn open(&mut self, alloc: Global, out: &mut Answers) -> Answer {
        let geometry = self.geometry;
        if !geometry.is_allowed() {
            return Err(Stop::Line);
        }
        let contents = replace(&mut self.contents, Vec::new(alloc));
        let contents = Contents::of_parts(alloc, contents)?;
        let owned = replace(&mut self.owned, Vec::new(alloc));
        self.opening = FileState::opening(alloc, geometry, contents, owned);
        self.entries.clear();
        self.state = self.opening.copy(alloc)?;
        self.stamp = 1;
        out.ok()
    }

    /// `area AREA PART`: the part owns the area.
    pub fn area(&mut self, text: &str, out: &mut Answers) -> Answer {
        let (area, part) = parted(text);
        let area = word_of(area)?;
        let part = word_of(part)?;
        self.owned.push(OwnedArea { area, part })?;
        out.ok()
    }

    /// `record PART PLACE RECORD`: the part has the record, after those before.
    pub fn record(&mut self, alloc: Global, text: &str, out: &mut Answers) -> Answer {
        let (part, rest) = parted(text);
        let (place, record) = parted(rest);
        let part = word_of(part)?;
        let place = place_of(alloc, place)?;
        let record = record_of(alloc, record)?;
        self.put(alloc, part, place, record)?;
        out.ok()
    }

    /// Adds a record at the end of a part.
    fn put(&mut self, alloc: Global, part: u32, place: Place, record: Bytes) -> Answer {
        let placed = PlacedItem::new(place, Stored::Standing(record));
        for held in self.contents.iter_mut() {
            if held.0 == part {
                held.1.push(placed)?;
                return Ok(());
            }
        }
        let mut content = PartContent::new(alloc);
        content.push(placed)?;
        self.contents.push((part, content))?;
        Ok(())
    }

    /// `cluster NAME PART KIND KEYLENGTH KEYOFFSET MAXIMUM`: the catalog has the cluster.
    pub fn cluster(&mut self, alloc: Global, text: &str, out: &mut Answers) -> Answer {
        let (name, rest) = parted(text);
        let (part, rest) = parted(rest);
        let (kind, rest) = parted(rest);
        let (length, rest) = parted(rest);
        let (offset, maximum) = parted(rest);
        let kind = match kind {
            "keyed" => Kind::Keyed,
            "entry" => Kind::Entry,
            "relative" => Kind::Relative,
            _ => return Err(Stop::Line),
        };
        let mut entry = plain_entry(alloc, name)?;
        entry.entry_kind = EntryKind::Cluster;
        entry.kind = Some(kind);
        entry.part = PartNo(word_of(part)?);
        entry.key_length = small_of(length)?;
        entry.key_offset = small_of(offset)?;
        entry.maximum = word_of(maximum)?;
        self.catalog(alloc, entry, out)
    }

    /// `alternate NAME PART BASE KEYLENGTH KEYOFFSET unique|shared`: the catalog has the built
    /// alternate index.
    pub fn alternate(&mut self, alloc: Global, text: &str, out: &mut Answers) -> Answer {
        let (name, rest) = parted(text);
        let (part, rest) = parted(rest);
        let (base, rest) = parted(rest);
        let (length, rest) = parted(rest);
        let (offset, unique) = parted(rest);
        let mut entry = plain_entry(alloc, name)?;
        entry.entry_kind = EntryKind::Alternate;
        entry.kind = Some(Kind::Keyed);
        entry.part = PartNo(word_of(part)?);
        entry.related = Some(PartNo(word_of(base)?));
        entry.key_length = small_of(length)?;
        entry.key_offset = small_of(offset)?;
        entry.maximum = 80;
        entry.unique = unique == "unique";
        entry.built = true;
        entry.first_area = Some(AreaNo(1));
        self.catalog(alloc, entry, out)
    }

    /// Adds an entry to the catalog.
    fn catalog(&mut self, alloc: Global, entry: CatEntry, out: &mut Answers) -> Answer {
        let mut bytes = [0u8; RECORD_LENGTH];
        write_entry(&entry, &mut bytes);
        self.enter(alloc, &bytes, out)
    }

    /// Adds a catalog record, whose place is the name in its first bytes.
    fn enter(&mut self, alloc: Global, record: &[u8], out: &mut Answers) -> Answer {
        let end = record.len().min(NAME_LIMIT);
        let place = Place::from_vec(Vec::from_slice(alloc, &record[..end])?);
        let record = Bytes::from_vec(Vec::from_slice(alloc, record)?);
        self.put(alloc, 0, place, record)?;
        out.ok()
    }
}

/// An entry with a name and what clusters have in common.
fn plain_entry(alloc: Global, name: &str) -> Result<CatEntry, Stop> {
    let name = match dataset_name(alloc, name) {
        Ok(name) => name,
        Err(NameFault::Memory) => return Err(Stop::Memory),
        Err(_) => return Err(Stop::Line),
    };
    Ok(CatEntry {
        name,
        entry_kind: EntryKind::Cluster,
        kind: None,
        spanned: false,
        unique: false,
        built: false,
        part: PartNo(1),
        related: None,
        key_length: 0,
        key_offset: 0,
        average: 80,
        maximum: 80,
        first_area: None,
        free_space: FreeSpace {
            interval: 0,
            area: 0,
        },
        share_options: ShareOptions {
            regions: 1,
            systems: 3,
        },
        space: SpaceUnit::Unstated,
        primary: 0,
        secondary: 0,
        interval_size: 0,
        data_name: None,
        index_name: None,
        storage_class: None,
        data_class: None,
        management_class: None,
    })
}
