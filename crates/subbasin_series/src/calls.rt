// A sub-basin call as numbers by place: the record's, then rain, pan and temperature; their ranges; and what the call hands back.
use common::refusal::Refusal;
use common::weather::{LEAST_TEMPERATURE, MOST_PAN, MOST_RAIN, MOST_TEMPERATURE, Weather};
use std::io;
use subbasin::record::{Sender, SubBasin};
use subbasin::step::Flows;
use testing::checksum::Checksum;
use testing::lines::Row;
use testing::ranges::{Edge, Range};
use testing::rows::Numbers;
use testing::{refusals, rows};

#[derive(Clone, Copy)]
pub struct Call {
    pub record: SubBasin,
    pub weather: Weather,
}

const RAIN: usize = rows::PLACES;

const PAN: usize = rows::PLACES + 1;

pub const PLACES: usize = rows::PLACES + 3;

impl Call {
    // Makes the call: the record is then the one that is handed back.
    pub fn take(&mut self) -> Result<Flows, Refusal> {
        self.record.step(self.weather)
    }

    // The same, with every number of the call and its answer printed.
    pub fn print(&mut self, rt: &impl Print) -> io::Result<Result<Flows, Refusal>> {
        let before = Numbers::from(&self.record);
        let given = self.take();
        let after = Numbers::from(&self.record);
        let Weather {
            rain,
            pan,
            temperature,
        } = self.weather;
        println!(rt;
            "step{} {rain} {pan} {temperature}{}{}{}",
            Row(&before.0),
            Row(&refusals::told(&given)),
            Row(&after.0),
            Row(&flows_of(&given))
        )?;
        Ok(given)
    }

    // The call with the number at a place at an edge of its range, or above it where nothing stands below.
    pub fn edged(&self, place: usize, edge: Edge) -> Call {
        let mut call = *self;
        match Spot::from(place) {
            Spot::Record(place) => {
                let v = at(record_range(&self.record, place, Sender::Host), edge);
                rows::put(&mut call.record, place, v);
            }
            Spot::Rain => call.weather.rain = at(Range::between(0, MOST_RAIN), edge),
            Spot::Pan => call.weather.pan = at(Range::between(0, MOST_PAN), edge),
            Spot::Temperature => call.weather.temperature = temperature_at(edge),
        }
        call
    }

    // Goes on from the record that another call handed back, but for the number at a place.
    pub fn go_on(&mut self, other: &Call, place: usize) {
        let right = rows::at(&self.record, place);
        self.record = other.record;
        if let Spot::Record(place) = Spot::from(place) {
            rows::put(&mut self.record, place, right);
        }
    }
}

fn at(range: Range, edge: Edge) -> u64 {
    match edge {
        Edge::Below if range.least == 0 => range.at(Edge::Above),
        _ => range.at(edge),
    }
}

fn temperature_at(edge: Edge) -> i64 {
    match edge {
        Edge::Below => LEAST_TEMPERATURE - 1,
        Edge::Least => LEAST_TEMPERATURE,
        Edge::Most => MOST_TEMPERATURE,
        Edge::Above => MOST_TEMPERATURE + 1,
        Edge::Far => i64::MAX,
    }
}

// What stands at a place.
#[derive(Clone, Copy)]
enum Spot {
    Record(usize),
    Rain,
    Pan,
    Temperature,
}

impl From<usize> for Spot {
    fn from(place: usize) -> Spot {
        match place {
            _ if place < rows::PLACES => Spot::Record(place),
            RAIN => Spot::Rain,
            PAN => Spot::Pan,
            _ => Spot::Temperature,
        }
    }
}

// Every number of an answer: number and place, the record after, the flows.
pub fn add(sum: &mut Checksum, given: &Result<Flows, Refusal>, after: &SubBasin) {
    sum.add_row(&refusals::told(given));
    sum.add_record(after);
    sum.add_row(&flows_of(given));
}

// Zeros where the call is refused.
fn flows_of(given: &Result<Flows, Refusal>) -> [u64; 9] {
    match given {
        Ok(f) => [f.eu, f.el, f.ed, f.rb, f.r, f.rs, f.ri, f.rg, f.q],
        Err(_) => [0; 9],
    }
}

// REACH isn't judged: any word will do.
pub fn record_range(record: &SubBasin, place: usize, sender: Sender) -> Range {
    Range::of_number(record, place, 4294967295, sender)
}
