// Where each region of the lent scratch begins. No other crate counts cells: they take these numbers.
ghost use Rattle.std.specs.Prelude.{◌≡◌, false, ◌≤◌};
ghost use Rattle.solid_faces.specs.Faces.{Checked};
ghost use Rattle.scratch.specs.Regions.{Laid};
ghost use Rattle.scratch.specs.Standing.{Placed};

use file_part::read::{polygon_count, vertex_count};

// A part of at most so many polygons has no tree: trying each is faster.
pub const SCANNED: usize = 16;

// What a process asks for of a body past its faces, planes and areas: what it does not ask for is not computed.
#[derive(Clone, Copy)]
pub struct Stages {
    // the shared segments
    pub segments: bool,
    // the bodies and their volumes: SLA and SLS
    pub bodies: bool,
}

// For a part of so many polygons and vertices. What stands in each region: specs/Regions.antt.
#[derive(Clone, Copy)]
pub struct Regions {
    pub polygons: usize,
    pub vertices: usize,
    // the shared segments are put
    pub segments: bool,
    // the bodies and their volumes are put
    pub bodies: bool,
    // u32, after the bodies of the polygons, which stand from 0 on
    pub tree: usize,
    pub sides: usize,
    pub items: usize,
    pub sorted: usize,
    pub chain: usize,
    pub work: usize,
    pub faces: usize,
    pub firsts: usize,
    pub readings: usize,
    pub hits: usize,
    pub order: usize,
    pub kinds: usize,
    pub ranks: usize,
    pub words: usize,
    // f64, after the planes of the polygons, which stand from 0 on
    pub areas: usize,
    pub totals: usize,
    pub volumes: usize,
    pub boxes: usize,
    pub falling: usize,
    pub thickness: usize,
    pub weights: usize,
    pub rounds: usize,
    pub directions: usize,
    pub free: usize,
    pub reals: usize,
}

impl Regions {
    // For a part of so many polygons and vertices, of which neither segments nor bodies are asked for.
    pub fn new(polygons: usize, vertices: usize) -> Regions
        requires fact_1 { polygons ≤ 4096 }
        requires fact_2 { vertices ≤ 16384 }
        ensures laid_1 { Laid result }
        ensures laid_2 { result.polygons ≡ polygons }
        ensures laid_3 { result.vertices ≡ vertices }
        ensures segments_value_1 { result.segments ≡ false }
        ensures segments_value_2 { result.bodies ≡ false }
    {
        Regions::lay(
            polygons,
            vertices,
            Stages {
                segments: false,
                bodies: false,
            },
        )
    }

    fn lay(polygons: usize, vertices: usize, stages: Stages) -> Regions
        requires fact_1 { polygons ≤ 4096 }
        requires fact_2 { vertices ≤ 16384 }
        ensures laid_1 { Laid result }
        ensures laid_2 { result.polygons ≡ polygons }
        ensures laid_3 { result.vertices ≡ vertices }
        ensures segments_value_1 { result.segments ≡ stages.segments }
        ensures segments_value_2 { result.bodies ≡ stages.bodies }
    {
        let sides = 5 * polygons;
        let items = sides + 3 * vertices;
        let sorted = items + vertices;
        let chain = sorted + 2 * vertices;
        let faces = chain + 2 * vertices;
        let firsts = faces + polygons;
        let readings = firsts + 1024;
        let order = readings + 2 * polygons;
        let kinds = order + 2 * polygons;
        let totals = 5 * polygons;
        let volumes = totals + 1024;
        let boxes = volumes + polygons;
        let falling = boxes + 8 * polygons;
        let rounds = falling + 3 * polygons;
        let directions = rounds + 7 * polygons;
        Regions {
            polygons,
            vertices,
            segments: stages.segments,
            bodies: stages.bodies,
            tree: polygons,
            sides,
            items,
            sorted,
            chain,
            work: polygons + 6 * vertices,
            faces,
            firsts,
            readings,
            hits: readings + polygons,
            order,
            kinds,
            ranks: kinds + polygons,
            words: kinds + 2 * polygons,
            areas: 4 * polygons,
            totals,
            volumes,
            boxes,
            falling,
            thickness: falling + polygons,
            weights: falling + 2 * polygons,
            rounds,
            directions,
            free: directions + vertices,
            reals: directions + 8 * vertices + 1024,
        }
    }

    // For the part of a file, and what its process asks for.
    pub fn of(file: &[u8], stages: Stages) -> Regions
        requires { Checked file.now }
        ensures fact_1 { Placed file.now result }
        ensures fact_2 { result.segments ≡ stages.segments }
        ensures fact_3 { result.bodies ≡ stages.bodies }
    {
        Regions::lay(polygon_count(file), vertex_count(file), stages)
    }
}
