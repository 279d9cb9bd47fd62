ghost use Rattle.std.specs.Prelude.{◌≡◌, ◌≤◌, ◌||◌, List, ℕ, length, OnOk, IfOk, IfSome};
ghost use Rattle.std.specs.Option.{option_and_then};
ghost use Rattle.sc_geom.specs.Point.{IsInWorld, IsLatitude, IsLongitude};
ghost use Rattle.sc_geom.specs.Place.{latitude_of, longitude_of, place_from};
ghost use Rattle.sc_geom.specs.Building.{Completes};
ghost use Rattle.sc_geom.specs.Answers.{count_of};
ghost use Rattle.sc_grammar.specs.Words.{bytes_of};
ghost use Rattle.sc_cqlgrammar.specs.declared.mark.Mark.TheVariants as marks;
ghost use Rattle.sc_wkt.specs.Drawing.{Drawing as Drawn, blank, draws, reads, number_in, leaves, is_bad, wide_at, FailsByMemoryAlone};
ghost use Rattle.sc_wkt.specs.Kept.{IsDrawing};

use crate::drawing::Drawing;
use sc_cqlgrammar::Mark;
use sc_decimal::Dec;
use sc_geom::{Area, Draft, Geom, GeomFault, Path, Pt, latitude, longitude};
use sc_grammar::{Class, Token};
use std::alloc::{AllocError, Global};
use std::mem;

impl Drawing {
    /// Nothing is drawn.
    pub fn new(alloc: Global) -> Result<Drawing, AllocError>
        ensures { IfOk result (λ drawing. IsDrawing drawing blank) }
    {
        Ok(Drawing {
            number: Dec::of_integer(0),
            longitude: Some(0),
            path: Path::new(alloc, 0)?,
            area: Area::new(alloc, 0)?,
            rings: 0,
            draft: Draft::new(alloc),
            is_outside: false,
            is_short: false,
        })
    }

    /// Reads a token that was taken: the number that it is, if it is one.
    pub fn read(&mut self, text: &[u8], token: Token)
        requires ordered { token.from ≤ token.to }
        requires within { token.to ≤ length text.now }
        ensures { (d : Drawn) → IsDrawing self.old d → IsDrawing self.new (reads text.now token d) }
    {
        if matches!(token.class, Class::Number) {
            self.number = number_in(&text[token.from..token.to]);
        }
    }

    /// Where the token that was just read stands if it is a number that is too wide.
    pub fn wide_at(&self, token: Token) -> Option<u64>
        ensures { (text : List ℕ) (d : Drawn) → IsDrawing self.now (reads text token d) → result ≡ wide_at text token }
    {
        if matches!(token.class, Class::Number) && self.number.is_none() {
            Some(token.from as u64)
        } else {
            None
        }
    }

    /// Does what a mark means. Where memory ran out, what is drawn is of no use any more.
    pub fn draw(&mut self, alloc: Global, mark: Mark) -> Result<(), AllocError>
        ensures { (d : Drawn) → IsDrawing self.old d → OnOk result (IsDrawing self.new (draws mark d)) }
    {
        match mark {
            Mark::Longitude => {
                self.draw_longitude();
                Ok(())
            }
            Mark::Latitude => self.draw_latitude(),
            Mark::Points => self.draw_points(alloc),
            Mark::Line => self.draw_line(alloc),
            Mark::Ring => self.draw_ring(alloc),
            Mark::Area => self.draw_area(alloc),
            _ => Ok(()),
        }
    }

    fn draw_longitude(&mut self)
        ensures { (d : Drawn) → IsDrawing self.old d → IsDrawing self.new (draws marks.Longitude d) }
    {
        match self.number {
            None => self.longitude = None,
            Some(number) => {
                let found = longitude(&number);
                self.is_outside |= found.is_none();
                self.longitude = found;
            }
        }
    }

    fn draw_latitude(&mut self) -> Result<(), AllocError>
        ensures { (d : Drawn) → IsDrawing self.old d → OnOk result (IsDrawing self.new (draws marks.Latitude d)) }
    {
        let found = match self.number {
            None => None,
            Some(number) => {
                let found = latitude(&number);
                self.is_outside |= found.is_none();
                found
            }
        };
        self.path.push(place_from(self.longitude, found))
    }

    fn draw_points(&mut self, alloc: Global) -> Result<(), AllocError>
        ensures { (d : Drawn) → IsDrawing self.old d → OnOk result (IsDrawing self.new (draws marks.Points d)) }
    {
        let path = mem::replace(&mut self.path, Path::new(alloc, 0)?);
        self.draft.add_points(path)
    }

    fn draw_line(&mut self, alloc: Global) -> Result<(), AllocError>
        ensures { (d : Drawn) → IsDrawing self.old d → OnOk result (IsDrawing self.new (draws marks.Line d)) }
    {
        let path = mem::replace(&mut self.path, Path::new(alloc, 0)?);
        if path.len() < 2 {
            self.is_short = true;
            return Ok(());
        }
        self.draft.add_line(path)
    }

    fn draw_ring(&mut self, alloc: Global) -> Result<(), AllocError>
        ensures { (d : Drawn) → IsDrawing self.old d → OnOk result (IsDrawing self.new (draws marks.Ring d)) }
    {
        let path = mem::replace(&mut self.path, Path::new(alloc, 0)?);
        let rings = self.rings.checked_add(1).ok_or(AllocError)?;
        self.area.push(path)?;
        self.rings = rings;
        Ok(())
    }

    fn draw_area(&mut self, alloc: Global) -> Result<(), AllocError>
        ensures { (d : Drawn) → IsDrawing self.old d → OnOk result (IsDrawing self.new (draws marks.Area d)) }
    {
        if self.rings == 0 {
            return Ok(());
        }
        let area = mem::replace(&mut self.area, Area::new(alloc, 0)?);
        self.rings = 0;
        self.draft.add_area(area)
    }

    /// Whether a line has fewer than 2 positions, a ring is open, a coordinate is out of range or there are more positions
    /// than may be.
    pub fn is_bad(&self, most: u32) -> bool
        ensures { (d : Drawn) → IsDrawing self.now d → result ≡ is_bad most d }
    {
        self.is_short
            || self.draft.has_open_ring()
            || self.is_outside
            || u64::from(most) < self.draft.count()
    }

    /// The geometry that is drawn whole, where it isn't bad and has no number that is too wide: memory alone can be wanting.
    pub fn finish(self, most: u32) -> Result<Geom, AllocError>
        requires { (d : Drawn) × IsDrawing self d × FailsByMemoryAlone most d }
        ensures { (d : Drawn) → IsDrawing self d → IfOk result (λ geom. Completes d.sketch geom × (count_of geom ≤ most)) }
    {
        match self.draft.finish(most) {
            Ok(geom) => Ok(geom),
            Err(GeomFault::OutOfMemory) => Err(AllocError),
            Err(_) => unreachable!(),
        }
    }
}

/// The number; `None` where it is too wide.
fn number_in(bytes: &[u8]) -> Option<Dec>
    ensures { result ≡ number_in bytes.now }
{
    match Dec::read(bytes) {
        Ok(number) => Some(number),
        Err(_) => None,
    }
}

/// The position; `None` where a coordinate is.
fn place_from(longitude: Option<i64>, latitude: Option<i64>) -> Option<Pt>
    requires x { IfSome longitude IsLongitude }
    requires y { IfSome latitude IsLatitude }
    ensures place { result ≡ place_from longitude latitude }
    ensures in_world { IfSome result IsInWorld }
{
    match (longitude, latitude) {
        (Some(x), Some(y)) => Some(Pt { x, y }),
        _ => None,
    }
}
